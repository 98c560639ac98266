// The frame TXSQ (paper 01, "Serial frames"): content for a receiver.
ghost use Rattle.std.specs.Prelude.{true};
ghost use Rattle.format.specs.Promises.{Writes};
ghost use Rattle.format.specs.Refusals.{told_of};
ghost use Rattle.txsq.specs.Txsq.{txsqs, values_of};

use crate::reading::{Txsq, content};
use format::Refusal;

mod making;

// Writes the frame into the front of a lent buffer: record and content are judged, then room (6); the bytes past the frame stay.
pub fn write(buf: &mut [u8], r: Txsq, content: &[u8]) -> Result<(), Refusal>
    ensures { Writes txsqs buf.old (told_of result) buf.new (values_of (r, content.now)) }
{
    let w = making::judged(r, content);
    let n = w.bytes(false);
    w.closes(true, Txsq::LEAST, Txsq::GREATEST, buf.len())?;
    making::put(buf, r, content);
    change::sealing::stamp(buf, n);
    Ok(())
}
