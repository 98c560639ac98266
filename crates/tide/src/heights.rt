// The heights of a tide telegram (paper 02, C-11): its levels in a lent row, in centimetres, negative where the sign is 0.
ghost use Rattle.std.specs.Prelude.{◌≡◌, ◌+◌, ◌^◌, ◌≤◌, ◌<◌, length};
ghost use Rattle.std.proofs.lemmas.List.Edits.{sets};
ghost use Rattle.tide.specs.Heights.{height_of, entries_shown, heights_at};
ghost use Rattle.tide.specs.HeightsPromises.{Shows};
ghost use Rattle.tide.specs.Standing.{front};

use crate::entries::BYTES;
use crate::reading::Tide;
use format::{Reason, Refusal};

// The heights of a telegram into the front of the row: one for each entry, all records in the telegram's order. Their number is told.
pub fn heights(s: &[u8], row: &mut [i32]) -> Result<usize, Refusal>
    ensures { Shows s.now row.old result row.new }
{
    let tide = crate::reading::fields(s, 0)?.tide;
    let extent = crate::row::measure(s, tide.count);
    let entries = extent.entries;
    if row.len() < entries {
        return Err(Reason::Room.into());
    }
    show(s, tide.count, row);
    Ok(entries)
}

// The heights of a telegram's first `count` records, into the front of the row.
fn show(s: &[u8], count: u16, row: &mut [i32])
    requires { length (heights_at s.now count front) ≤ length row.old }
    ensures { row.new ≡ sets row.old 0 (heights_at s.now count front) }
{
    let mut k: usize = 0;
    let mut at = Tide::BITS as u32;
    for _ in 0..count {
        let shape = crate::row::record_at(s, at);
        show_entries(s, shape.first, shape.entries, row, k);
        k += shape.entries;
        at = shape.next as u32;
    }
}

// n entries from bit `at` on, from row entry k on.
fn show_entries(s: &[u8], at: usize, n: usize, row: &mut [i32], k: usize)
    requires { (at ≤ 2 ^ 33) × (n ≤ 511) × (k + n ≤ length row.old) }
    ensures { row.new ≡ sets row.old k (entries_shown s.now n at) }
{
    let from = at / 8;
    let skip = at % 8;
    for j in 0..n {
        let word = crate::entries::word(s, from + j * BYTES, skip);
        row[k + j] = height(word / 1_024 % 2, word % 1_024);
    }
}

// A level in centimetres.
fn height(sign: u64, value: u64) -> i32
    requires { value < 2 ^ 10 }
    ensures { result ≡ height_of sign value }
{
    let size = value as i32;
    if sign == 0 {
        return -size;
    }
    size
}
