// The outline of a notice.
ghost use Rattle.c_rows.specs.Told.{OutlineTold};
ghost use Rattle.format.specs.Promises.{Packs};

use format::packed;

// The points of a notice into the front of the row, latitude then longitude in hundredths of a minute, and how many they are into `points`. Language 0 is Chinese, 1 English.
#[unsafe(no_mangle)]
pub extern "C" fn bellnewt_outline(
    s: &[u8],
    language: u8,
    row: &mut [i32],
    points: &mut usize,
) -> u32
    ensures { Packs (λ refusal. OutlineTold s.now language row.old points.old refusal row.new points.new) result }
{
    packed(c_rows::outlines::outline(s, language, row, points))
}
