// What C and Rust link of every family's reading, over numbers and lent slices. Each call hands on what the family's own
// call promises. They stand apart from the others: where a message's fields are read by one call alone, the compiler makes
// one function of it.
#![tactic(auto)]

ghost use Rattle.c_rows.specs.Row.{Fills};
ghost use Rattle.c_rows.specs.Report.{numbers_of as Report·numbersOf};
ghost use Rattle.c_rows.specs.Gljc.{numbers_of as Gljc·numbersOf};
ghost use Rattle.c_rows.specs.Txsq.{numbers_of as Txsq·numbersOf};
ghost use Rattle.c_rows.specs.Txxx.{numbers_of as Txxx·numbersOf};
ghost use Rattle.c_rows.specs.Txhz.{numbers_of as Txhz·numbersOf};
ghost use Rattle.c_rows.specs.Warning.{numbers_of as Warning·numbersOf};
ghost use Rattle.c_rows.specs.Area.{numbers_of as Area·numbersOf};
ghost use Rattle.c_rows.specs.Packet.{numbers_of as Packet·numbersOf};
ghost use Rattle.c_rows.specs.Notice.{NoticeFills};
ghost use Rattle.c_rows.specs.Tide.{TideTold};
ghost use Rattle.format.specs.Promises.{Packs};

use format::packed;

// Reads the report into a row of 9: mmsi, longitude, latitude, day, hour, minute, speed, course, kind.
#[unsafe(no_mangle)]
pub extern "C" fn bellnewt_distress_read(s: &[u8], row: &mut [i64]) -> u32
    ensures { Packs (λ refusal. Fills (Report·numbersOf s.now) row.old refusal row.new) result }
{
    packed(c_rows::reports::read(s, row))
}

// Reads the frame GLJC into a row of 2: address, minutes.
#[unsafe(no_mangle)]
pub extern "C" fn bellnewt_gljc_read(s: &[u8], row: &mut [i64]) -> u32
    ensures { Packs (λ refusal. Fills (Gljc·numbersOf s.now) row.old refusal row.new) result }
{
    packed(c_rows::gljcs::read(s, row))
}

// Reads the frame TXSQ into a row of 9: address, category, mode, password, receiver, size, answer, where the content begins and its bytes.
#[unsafe(no_mangle)]
pub extern "C" fn bellnewt_txsq_read(s: &[u8], row: &mut [i64]) -> u32
    ensures { Packs (λ refusal. Fills (Txsq·numbersOf s.now) row.old refusal row.new) result }
{
    packed(c_rows::txsqs::read(s, row))
}

// Reads the frame TXXX into a row of 9: address, class, sender, hour, minute, size, mark, where the content begins and its bytes.
#[unsafe(no_mangle)]
pub extern "C" fn bellnewt_txxx_read(s: &[u8], row: &mut [i64]) -> u32
    ensures { Packs (λ refusal. Fills (Txxx·numbersOf s.now) row.old refusal row.new) result }
{
    packed(c_rows::txxxs::read(s, row))
}

// Reads the frame TXHZ into a row of 23: address, receiver, count, then each receipt's sent hour, sent minute, receipt hour, receipt minute.
#[unsafe(no_mangle)]
pub extern "C" fn bellnewt_txhz_read(s: &[u8], row: &mut [i64]) -> u32
    ensures { Packs (λ refusal. Fills (Txhz·numbersOf s.now) row.old refusal row.new) result }
{
    packed(c_rows::txhzs::read(s, row))
}

// Reads the warning into a row of 17: repeat, source, warning type, longitude, latitude, seven numbers of its body, month, day, hour, minute, hours.
#[unsafe(no_mangle)]
pub extern "C" fn bellnewt_warning_read(s: &[u8], row: &mut [i64]) -> u32
    ensures { Packs (λ refusal. Fills (Warning·numbersOf s.now) row.old refusal row.new) result }
{
    packed(c_rows::warnings::read(s, row))
}

// Reads the area into a row of 19: repeat, source, sequence, destination, resent, kind, shape, four numbers of its shape, month, day, hour, minute, second month, second day, second hour, advice.
#[unsafe(no_mangle)]
pub extern "C" fn bellnewt_area_read(s: &[u8], row: &mut [i64]) -> u32
    ensures { Packs (λ refusal. Fills (Area·numbersOf s.now) row.old refusal row.new) result }
{
    packed(c_rows::areas::read(s, row))
}

// Reads the packet into a row of 6: language, number, total, own, where the content begins and its bytes.
#[unsafe(no_mangle)]
pub extern "C" fn bellnewt_packet_read(s: &[u8], row: &mut [i64]) -> u32
    ensures { Packs (λ refusal. Fills (Packet·numbersOf s.now) row.old refusal row.new) result }
{
    packed(c_rows::packets::read(s, row))
}

// Reads the notice into a row of 10: source, station, serial, year, type, subtype, expiry, how many areas, how many numbers
// these have and how many bytes its text; the numbers of its areas and its text into the fronts of `areas` and `text`.
#[unsafe(no_mangle)]
pub extern "C" fn bellnewt_notice_read(
    s: &[u8],
    language: u8,
    row: &mut [i64],
    areas: &mut [u32],
    text: &mut [u8],
) -> u32
    ensures { Packs (λ refusal. NoticeFills language s.now row.old areas.old text.old refusal row.new areas.new text.new) result }
{
    packed(c_rows::notices::read(s, language, row, areas, text))
}

// Reads the tide telegram: how many records into `count`, how many numbers these have into `numbers`, and the numbers into the
// front of the row.
#[unsafe(no_mangle)]
pub extern "C" fn bellnewt_tide_read(
    s: &[u8],
    count: &mut u16,
    numbers: &mut usize,
    row: &mut [u32],
) -> u32
    ensures { Packs (λ refusal. TideTold s.now count.old numbers.old row.old refusal count.new numbers.new row.new) result }
{
    packed(c_rows::tides::read(s, count, numbers, row))
}
