// Writing a tide telegram (paper 02, C-11; 000, 5.4) into a lent buffer.
ghost use Rattle.format.specs.Refusals.{told_of};
ghost use Rattle.tide.specs.WritingPromises.{TideWrites};

use crate::reading::Tide;
use format::Refusal;
use walk::making::room;

mod entries;
mod making;

// Writes the telegram into the front of a lent buffer: its count and the numbers of its records are judged, then the size that
// they make (1), then room (6): in the buffer, and that the row has as many numbers as its position types and counts ask for.
pub fn write(buf: &mut [u8], r: Tide, row: &[u32]) -> Result<(), Refusal>
    ensures { TideWrites buf.old r row.now (told_of result) buf.new }
{
    let judged = making::judged(r, row);
    let walk = judged.walk;
    let room = room(row.len(), judged.next, buf.len());
    walk.closes(false, Tide::LEAST, Tide::GREATEST, room)?;
    making::put(buf, r, row);
    Ok(())
}
