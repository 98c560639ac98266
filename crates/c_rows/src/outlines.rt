// A notice's outline for callers that lend numbers: its language by a number, how many points into another.
ghost use Rattle.format.specs.Refusals.{told_of};
ghost use Rattle.c_rows.specs.Told.{OutlineTold};

use format::{Reason, Refusal};

// The points of a notice into the front of the row, and how many they are into `points`. Language 0 is Chinese, 1 English.
pub fn outline(s: &[u8], language: u8, row: &mut [i32], points: &mut usize) -> Result<(), Refusal>
    ensures { OutlineTold s.now language row.old points.old (told_of result) row.new points.new }
{
    if language > 1 {
        return Err(Reason::Range.into());
    }
    *points = outline::outline(s, language == 1, row)?;
    Ok(())
}
