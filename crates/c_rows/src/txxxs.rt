// The frame TXXX as numbers.
ghost use Rattle.format.specs.Refusals.{told_of};
ghost use Rattle.std.specs.Prelude.{◌≡◌};
ghost use Rattle.c_rows.specs.Row.{Fills, entries};
ghost use Rattle.c_rows.specs.Txxx.{row_of, numbers_of};

use format::Refusal;
use txxx::Txxx;

// Reads the frame into a row of 9: address, class, sender, hour, minute, size, mark, where the content begins and its bytes.
pub fn read(s: &[u8], row: &mut [i64]) -> Result<(), Refusal>
    ensures { Fills (numbers_of s.now) row.old (told_of result) row.new }
{
    let r = txxx::read(s)?;
    crate::fill(row, &numbers(r))
}

fn numbers(r: Txxx) -> [i64; 9]
    ensures { result ≡ entries (row_of r) }
{
    [
        r.address as i64,
        r.class as i64,
        r.sender as i64,
        r.hour as i64,
        r.minute as i64,
        r.size as i64,
        r.mark as i64,
        Txxx::CONTENT as i64,
        ((r.size as u32 + 7) / 8) as i64,
    ]
}
