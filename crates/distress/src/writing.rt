// The distress report (paper 01, "Distress report"; 001, A.1): reading, writing and correcting it.
ghost use Rattle.distress.specs.Report.{reports, values_of};
ghost use Rattle.format.specs.Promises.{Writes};
ghost use Rattle.format.specs.Refusals.{told_of};

use crate::reading::Report;
use format::{Reason, Refusal};

mod making;

// Writes the report into the front of a lent buffer: the record is judged, then room (6); the bytes past the message stay.
pub fn write(buf: &mut [u8], r: Report) -> Result<(), Refusal>
    ensures { Writes reports buf.old (told_of result) buf.new (values_of r) }
{
    let v = making::spelled(r);
    let w = making::judged(v);
    w.passed()?;
    if buf.len() < Report::LEAST {
        return Err(Reason::Room.into());
    }
    making::put(buf, v);
    Ok(())
}
