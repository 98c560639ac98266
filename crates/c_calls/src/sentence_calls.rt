// The distress sentence's calls.
ghost use Rattle.c_rows.specs.Row.{Fills};
ghost use Rattle.c_rows.specs.Report.{record_of};
ghost use Rattle.c_rows.specs.Sentence.{sentence_numbers, SentenceWrites};
ghost use Rattle.format.specs.Promises.{Packs};

use distress::Report;
use format::packed;

// Reads the sentence into a row of 10: address, then the report's nine.
#[unsafe(no_mangle)]
pub extern "C" fn bellnewt_sentence_read(s: &[u8], row: &mut [i64]) -> u32
    ensures { Packs (λ refusal. Fills (sentence_numbers s.now) row.old refusal row.new) result }
{
    packed(c_rows::sentences::read(s, row))
}

// Writes the sentence of these numbers into the front of a lent buffer, and how many bytes it has into `size`.
#[unsafe(no_mangle)]
pub extern "C" fn bellnewt_sentence_write(
    buf: &mut [u8],
    size: &mut usize,
    address: u32,
    mmsi: u32,
    longitude: i32,
    latitude: i32,
    day: u8,
    hour: u8,
    minute: u8,
    speed: u8,
    course: u16,
    kind: u8,
) -> u32
    ensures { Packs (λ refusal. SentenceWrites buf.old size.old address (record_of mmsi longitude latitude day hour minute speed course kind) refusal buf.new size.new) result }
{
    let report = Report {
        mmsi,
        longitude,
        latitude,
        day,
        hour,
        minute,
        speed,
        course,
        kind,
    };
    packed(c_rows::sentences::write(buf, size, address, report))
}
