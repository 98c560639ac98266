// Writing the distress sentence: its address and its report, laid into the pattern.
ghost use Rattle.sentence.specs.Sentence.{Sends};

use crate::{GREATEST_ADDRESS, LEAST_ADDRESS};
use distress::Report;
use format::{Reason, Refusal};

// Writes the sentence into the front of a lent buffer, and says how many bytes it has: address, report and room (6) are tested first;
// the bytes past it stay.
pub fn write(buf: &mut [u8], address: u32, r: Report) -> Result<usize, Refusal>
    ensures { Sends buf.old address r result buf.new }
{
    if address < LEAST_ADDRESS || address > GREATEST_ADDRESS {
        return Err(Reason::Range.into());
    }
    let mut bytes = [0; 17];
    distress::write(&mut bytes, r)?;
    let figures = crate::spelling::decimal(address);
    let digits = &figures.chars[figures.from..];
    if crate::laying::lay(buf, digits, bytes) {
        return Ok(crate::laying::AROUND + digits.len());
    }
    Err(Reason::Room.into())
}
