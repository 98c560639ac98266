// The frame GLJC (paper 01, "Serial frames"): one byte, minutes.
ghost use Rattle.std.specs.Prelude.{[]};
ghost use Rattle.format.specs.Fmt.{write as Fmt·write};
ghost use Rattle.format.specs.Promises.{Writes};
ghost use Rattle.format.specs.Refusals.{told_of};
ghost use Rattle.walk.specs.Laws.Judging.{Judged};
ghost use Rattle.walk.specs.Walk.{seen};
ghost use Rattle.format.specs.Laws.Putting.{Puts};
ghost use Rattle.gljc.specs.Gljc.{gljc, gljcs, values_of};

use crate::reading::{Gljc, LENGTH, LETTERS};
use format::Refusal;

// Writes the frame into the front of a lent buffer: the record is judged, then room (6); the bytes past the frame stay.
pub fn write(buf: &mut [u8], r: Gljc) -> Result<(), Refusal>
    ensures { Writes gljcs buf.old (told_of result) buf.new (values_of r) }
{
    let w = judged(r);
    let n = w.bytes(false);
    w.closes(true, Gljc::LEAST, Gljc::GREATEST, buf.len())?;
    put(buf, r);
    change::sealing::stamp(buf, n);
    Ok(())
}

fn judged(r: Gljc) -> walk::walk::Walk
    ensures { Judged (Fmt·write gljc [] 0 (values_of r)) (seen result) }
{
    let w = frame::judged(LETTERS, LENGTH, r.address as u64);
    w.value(8, r.minutes as u64, 0, 255)
}

fn put(buf: &mut [u8], r: Gljc)
    ensures { Puts gljc (values_of r) buf.old buf.new }
{
    frame::put(buf, LETTERS, LENGTH, r.address as u64);
    bits::put(buf, 80, 8, r.minutes as u64);
}
