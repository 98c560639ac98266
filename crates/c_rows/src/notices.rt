// The notice as numbers in lent rows, with its language as a number.
ghost use Rattle.format.specs.Refusals.{told_of};
ghost use Rattle.std.specs.Prelude.{◌≡◌, ◌<◌, ◌^◌};
ghost use Rattle.c_rows.specs.Notice.{row_of, NoticeFills};
ghost use Rattle.c_rows.specs.Making.{WritesIn, CorrectsIn};

use format::{Reason, Refusal};
use notice::{Notice, Told};

// The greatest number of a language.
const ENGLISH: u8 = 1;

// The entries of a row.
const ROW: usize = 10;

// Reads the notice: its numbers into a row of 10 (source, station, serial, year, type, subtype, expiry, how many areas, how
// many numbers these have, how many bytes its text), the numbers of its areas and its text into the fronts of theirs.
pub fn read(
    s: &[u8],
    language: u8,
    row: &mut [i64],
    areas: &mut [u32],
    text: &mut [u8],
) -> Result<(), Refusal>
    ensures { NoticeFills language s.now row.old areas.old text.old (told_of result) row.new areas.new text.new }
{
    if language > ENGLISH {
        return Err(Reason::Range.into());
    }
    let english = language == ENGLISH;
    if row.len() < ROW {
        // Its own refusal comes first.
        notice::refusal(s, english)?;
        return Err(Reason::Room.into());
    }
    let r = notice::read(s, english, areas, text)?;
    crate::fill(row, &numbers(r))
}

// Writes the notice of this record, areas and text into the front of a lent buffer, for a language that is 0 or 1.
pub fn write(
    buf: &mut [u8],
    areas: &[u32],
    text: &[u8],
    language: u8,
    r: Notice,
) -> Result<(), Refusal>
    ensures { WritesIn language buf.old r areas.now text.now (told_of result) buf.new }
{
    if language > ENGLISH {
        return Err(Reason::Range.into());
    }
    notice::write(buf, r, areas, text, language == ENGLISH)
}

// Makes field number `field` of the notice be `value`, or leaves every byte, for a language that is 0 or 1.
pub fn correct(s: &mut [u8], language: u8, field: usize, value: u64) -> Result<(), Refusal>
    ensures { CorrectsIn language s.old field value (told_of result) s.new }
{
    if language > ENGLISH {
        return Err(Reason::Range.into());
    }
    notice::correct(s, language == ENGLISH, field, value)
}

fn numbers(r: Told) -> [i64; 10]
    requires { (r.numbers < 2 ^ 63) × (r.text < 2 ^ 63) }
    ensures { result ≡ row_of r }
{
    let notice = r.notice;
    [
        notice.source as i64,
        notice.station as i64,
        notice.serial as i64,
        notice.year as i64,
        notice.kind as i64,
        notice.subtype as i64,
        notice.expiry as i64,
        notice.count as i64,
        r.numbers as i64,
        r.text as i64,
    ]
}
