// Message 8 with application 412/03, a warning (paper 01, "AIS"; 003, tables 5 and 56 to 62).
ghost use Rattle.format.specs.Promises.{Writes};
ghost use Rattle.format.specs.Refusals.{told_of};
ghost use Rattle.warning.specs.Warning.{warnings, values_of};

use crate::reading::Warning;
use format::Refusal;

mod making;

// Writes the warning into the front of a lent buffer: the record is judged, then room (6); the bytes past the message stay.
pub fn write(buf: &mut [u8], r: Warning) -> Result<(), Refusal>
    ensures { Writes warnings buf.old (told_of result) buf.new (values_of r) }
{
    let time = r.time.spelled();
    match making::judged(r, time).closes(false, Warning::LEAST, Warning::GREATEST, buf.len()) {
        Ok(()) => {
            making::put(buf, r, time);
            Ok(())
        },
        // It is judged once more for its bit, so that a good record carries none.
        Err(_) => {
            making::judged(r, time).closes(false, Warning::LEAST, Warning::GREATEST, buf.len())
        },
    }
}
