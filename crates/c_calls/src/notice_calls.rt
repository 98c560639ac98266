// The notice: writing and correcting. Language 0 is Chinese, 1 English; above that it is 4 before anything else.
ghost use Rattle.c_rows.specs.Notice.{record_of};
ghost use Rattle.c_rows.specs.Making.{WritesIn, CorrectsIn};
ghost use Rattle.format.specs.Promises.{Packs};

use format::packed;
use notice::Notice;

// Writes the notice of these numbers, areas and text into the front of a lent buffer.
#[unsafe(no_mangle)]
pub extern "C" fn bellnewt_notice_write(
    buf: &mut [u8],
    areas: &[u32],
    text: &[u8],
    language: u8,
    source: u8,
    station: u8,
    serial: u16,
    year: u8,
    kind: u8,
    subtype: u8,
    expiry: u32,
    count: u8,
) -> u32
    ensures { Packs (λ refusal. WritesIn language buf.old (record_of source station serial year kind subtype expiry count) areas.now text.now refusal buf.new) result }
{
    let r = Notice {
        source,
        station,
        serial,
        year,
        kind,
        subtype,
        expiry,
        count,
    };
    packed(c_rows::notices::write(buf, areas, text, language, r))
}

// Makes field number `field` of the notice be `value`, or leaves every byte.
#[unsafe(no_mangle)]
pub extern "C" fn bellnewt_notice_correct(
    s: &mut [u8],
    language: u8,
    field: usize,
    value: u64,
) -> u32
    ensures { Packs (λ refusal. CorrectsIn language s.old field value refusal s.new) result }
{
    packed(c_rows::notices::correct(s, language, field, value))
}
