// The notice telegram (paper 01, "Notice and packet"; 000, 5.2.2): reading, writing and correcting it.
ghost use Rattle.notice.specs.Notice.{ours};
ghost use Rattle.format.specs.Refusals.{told_of};
ghost use Rattle.notice.specs.WritingPromises.{NoticeWrites};

use crate::reading::Notice;
use format::Refusal;
use walk::making::room;

mod making;

// Writes the notice into the front of a lent buffer: its record, the numbers of its areas and its text are judged, then the
// size that they make (1), then room (6): in the buffer, and that the row has as many numbers as its kinds and counts ask for.
pub fn write(
    buf: &mut [u8],
    r: Notice,
    areas: &[u32],
    text: &[u8],
    english: bool,
) -> Result<(), Refusal>
    ensures { NoticeWrites (ours english) buf.old r areas.now text.now (told_of result) buf.new }
{
    let judged = making::judged(r, areas, text, english);
    let walk = judged.walk;
    let room = room(areas.len(), judged.next, buf.len());
    walk.closes_before(text.len(), false, Notice::LEAST, Notice::GREATEST, room)?;
    making::put(buf, r, areas, text);
    Ok(())
}
