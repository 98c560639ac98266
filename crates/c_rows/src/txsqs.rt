// The frame TXSQ as numbers.
ghost use Rattle.format.specs.Refusals.{told_of};
ghost use Rattle.std.specs.Prelude.{◌≡◌};
ghost use Rattle.c_rows.specs.Row.{Fills, entries};
ghost use Rattle.c_rows.specs.Txsq.{row_of, numbers_of};

use format::Refusal;
use txsq::Txsq;

// Reads the frame into a row of 9: address, category, mode, password, receiver, size, answer, where the content begins and its bytes.
pub fn read(s: &[u8], row: &mut [i64]) -> Result<(), Refusal>
    ensures { Fills (numbers_of s.now) row.old (told_of result) row.new }
{
    let r = txsq::read(s)?;
    crate::fill(row, &numbers(r))
}

fn numbers(r: Txsq) -> [i64; 9]
    ensures { result ≡ entries (row_of r) }
{
    [
        r.address as i64,
        r.category as i64,
        r.mode as i64,
        r.password as i64,
        r.receiver as i64,
        r.size as i64,
        r.answer as i64,
        Txsq::CONTENT as i64,
        ((r.size as u32 + 7) / 8) as i64,
    ]
}
