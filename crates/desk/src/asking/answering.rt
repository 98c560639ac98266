// What is answered of a place that was asked for (paper 01, "The desk"): the missing numbers or the joined notice, by value, over the lent store.
ghost use Rattle.std.specs.Prelude.{◌≤◌, ◌<◌, [], ◌≡◌, length, Ok};
ghost use Rattle.places.specs.Places.{four_places, freed};
ghost use Rattle.places.specs.Desk.{store_bytes, answers, missing_below, lists, joined_below, hands_out, turn_of, turns};
ghost use Rattle.places.specs.Promises.{Hands};
ghost use Rattle.places.specs.Replies.{Joined, turned};
ghost use Rattle.places.specs.Laws.Good.{Sized};

use crate::asking::joining::{count_bytes, count_missing, join, list_missing};
use format::{Reason, Refusal};
use places::{Place, Reply, Turn};

// Asked of place `i`, which is `p`: the missing numbers, or the joined packets, where there is room for them.
pub(crate) fn answer(
    first: Place,
    i: usize,
    p: Place,
    store: &[u8],
    notice: &mut [u8],
    missing: &mut [u16],
) -> Result<Turn, Refusal>
    requires { Sized p × (i < four_places) × (store_bytes ≤ length store.now) }
    ensures { Hands first (answers store.now i p notice.old missing.old) (turned first result) notice.new missing.new }
{
    let count = count_missing(p);
    if count != 0 {
        return tell_missing(first, p, count, missing);
    }
    hand_out(first, i, p, store, notice)
}

// The missing numbers, which are `count`, where the row has room for them.
fn tell_missing(first: Place, p: Place, count: usize, missing: &mut [u16]) -> Result<Turn, Refusal>
    requires { Sized p × (count ≡ length (missing_below p.total p)) }
    ensures { Hands first (lists (missing_below p.total p) [] missing.old) (turned first result) [] missing.new }
{
    if count > missing.len() {
        return Err(Reason::Room.into());
    }
    list_missing(p, missing);
    Ok(Turn::staying(first, Reply::Missing(count)))
}

// The joined packets, where the buffer has room for them.
fn hand_out(
    first: Place,
    i: usize,
    p: Place,
    store: &[u8],
    notice: &mut [u8],
) -> Result<Turn, Refusal>
    requires { Sized p × (i < four_places) × (store_bytes ≤ length store.now) }
    ensures { Hands first (hands_out (joined_below p.total store.now i p) i p notice.old []) (turned first result) notice.new [] }
{
    let bytes = count_bytes(p);
    if bytes > notice.len() {
        return Err(Reason::Room.into());
    }
    join(p, i, store, notice);
    Ok(handed(i, p, bytes))
}

// The notice of that many bytes is handed out, and its place is free.
fn handed(i: usize, p: Place, bytes: usize) -> Turn
    ensures { turned p (Ok result) ≡ turn_of [] (Joined bytes p.language) (turns i (freed p)) }
{
    Turn {
        at: i,
        place: p.freed(),
        reply: Reply::Joined(bytes, p.language),
    }
}
