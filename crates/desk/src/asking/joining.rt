// One place of the desk (paper 01, "The desk"): the numbers missing of its notice, and its packets joined in number order.
ghost use Rattle.std.specs.Prelude.{◌≡◌, ◌++◌, ◌≤◌, ◌<◌, length, drop};
ghost use Rattle.places.specs.Places.{four_places};
ghost use Rattle.places.specs.Desk.{store_bytes, missing_below, joined_below};
ghost use Rattle.places.specs.Laws.Good.{Sized};
ghost use Rattle.places.specs.Laws.Joined.{held_below};

use packet::{JOINED, PART};
use places::Place;

// How many numbers are missing.
pub(crate) fn count_missing(p: Place) -> usize
    requires { Sized p }
    ensures { result ≡ length (missing_below p.total p) }
{
    p.sizes[..p.total as usize]
        .iter()
        .map(|n| usize::from(*n == 0))
        .sum()
}

// The missing numbers, rising, into the front of the row.
pub(crate) fn list_missing(p: Place, row: &mut [u16])
    requires { Sized p × (length (missing_below p.total p) ≤ length row.old) }
    ensures { row.new ≡ missing_below p.total p ++ drop (length (missing_below p.total p)) row.old }
{
    let mut at = 0;
    for (k, n) in p.sizes[..p.total as usize].iter().enumerate() {
        if *n == 0 {
            row[at] = k as u16;
            at += 1;
        }
    }
}

// How many bytes the packets held are in all.
pub(crate) fn count_bytes(p: Place) -> usize
    requires { Sized p }
    ensures { result ≡ held_below p.total p }
{
    p.sizes[..p.total as usize]
        .iter()
        .map(|n| usize::from(*n))
        .sum()
}

// The packets of place `i`, in number order, into the front of the buffer.
pub(crate) fn join(p: Place, i: usize, store: &[u8], notice: &mut [u8])
    requires { Sized p × (i < four_places) × (store_bytes ≤ length store.now) × (held_below p.total p ≤ length notice.old) }
    ensures { notice.new ≡ joined_below p.total store.now i p
        ++ drop (length (joined_below p.total store.now i p)) notice.old }
{
    let mut at = 0;
    for (k, n) in p.sizes[..p.total as usize].iter().enumerate() {
        let size = usize::from(*n);
        let from = i * JOINED + k * PART;
        places::lay(notice, at, &store[from..from + size]);
        at += size;
    }
}
