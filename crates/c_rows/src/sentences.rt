// The distress sentence as numbers.
ghost use Rattle.format.specs.Refusals.{told_of};
ghost use Rattle.c_rows.specs.Row.{Fills};
ghost use Rattle.c_rows.specs.Sentence.{sentence_numbers, SentenceWrites};

use crate::reports::numbers;
use distress::Report;
use format::Refusal;

// Reads the sentence into a row of 10: address, then the report's nine.
pub fn read(s: &[u8], row: &mut [i64]) -> Result<(), Refusal>
    ensures { Fills (sentence_numbers s.now) row.old (told_of result) row.new }
{
    let (address, report) = sentence::read(s)?;
    crate::fill(row, &numbers(address, report))
}

// Writes the sentence into the front of a lent buffer, and how many bytes it has into `size`.
pub fn write(buf: &mut [u8], size: &mut usize, address: u32, report: Report) -> Result<(), Refusal>
    ensures { SentenceWrites buf.old size.old address report (told_of result) buf.new size.new }
{
    *size = sentence::write(buf, address, report)?;
    Ok(())
}
