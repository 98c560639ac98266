// Each family read into a lent row of numbers, as C and Rust are given it.
#![tactic(auto)]

ghost use Rattle.format.specs.Refusals.{told_of};
ghost use Rattle.format.specs.Fmt.{accepted};
ghost use Rattle.c_rows.specs.Row.{Fills};

use format::{Reason, Refusal};

pub mod areas;
pub mod gljcs;
pub mod notices;
pub mod outlines;
pub mod packets;
pub mod reports;
pub mod sentences;
pub mod slots;
pub mod tides;
pub mod txhzs;
pub mod txsqs;
pub mod txxxs;
pub mod warnings;

// Stores the numbers at the front of a row that has room; the entries past them stay.
pub(crate) fn fill(row: &mut [i64], numbers: &[i64]) -> Result<(), Refusal>
    ensures { Fills (accepted numbers.now) row.old (told_of result) row.new }
{
    if row.len() < numbers.len() {
        return Err(Reason::Room.into());
    }
    row[..numbers.len()].copy_from_slice(numbers);
    Ok(())
}
