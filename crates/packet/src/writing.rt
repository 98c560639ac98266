// The packet (paper 01, "Notice and packet"; 000, 5.2.2.2): reading, writing and correcting it.
ghost use Rattle.format.specs.Promises.{Writes};
ghost use Rattle.format.specs.Refusals.{told_of};
ghost use Rattle.packet.specs.Packet.{packets, values_of};

use crate::reading::{Packet, content};
use format::Refusal;

mod making;

// Writes the packet into the front of a lent buffer: the record is judged (4), then the content's size (1), then room (6); the bytes past the packet stay.
pub fn write(buf: &mut [u8], r: Packet, content: &[u8]) -> Result<(), Refusal>
    ensures { Writes packets buf.old (told_of result) buf.new (values_of (r, content.now)) }
{
    let w = making::judged(r);
    w.closes_before(
        content.len(),
        false,
        Packet::LEAST,
        Packet::GREATEST,
        buf.len(),
    )?;
    making::put(buf, r, content);
    Ok(())
}
