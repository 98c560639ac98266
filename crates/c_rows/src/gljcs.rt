// The frame GLJC as numbers.
ghost use Rattle.format.specs.Refusals.{told_of};
ghost use Rattle.std.specs.Prelude.{◌≡◌};
ghost use Rattle.c_rows.specs.Row.{Fills, entries};
ghost use Rattle.c_rows.specs.Gljc.{row_of, numbers_of};

use format::Refusal;
use gljc::Gljc;

// Reads the frame into a row of 2: address, minutes.
pub fn read(s: &[u8], row: &mut [i64]) -> Result<(), Refusal>
    ensures { Fills (numbers_of s.now) row.old (told_of result) row.new }
{
    let r = gljc::read(s)?;
    crate::fill(row, &numbers(r))
}

fn numbers(r: Gljc) -> [i64; 2]
    ensures { result ≡ entries (row_of r) }
{
    [r.address as i64, r.minutes as i64]
}
