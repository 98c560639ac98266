// Asking for a notice at the desk, and dropping one (paper 01, "The desk"): the four places by value, over the lent store.
ghost use Rattle.places.specs.Places.{place_at};
ghost use Rattle.places.specs.Promises.{AskTurn, DropTurn};
ghost use Rattle.places.specs.Replies.{turned};

use format::{Reason, Refusal};
use places::{PLACES, Place, Reply, Turn};

mod answering;
mod joining;

// The notice of that message number, joined in the buffer, and its place free; or, where packets are missing, their numbers in the row.
pub fn ask(
    places: &[Place; PLACES],
    store: &[u8],
    number: u8,
    notice: &mut [u8],
    missing: &mut [u16],
) -> Result<Turn, Refusal>
    ensures { AskTurn places.now store.now number notice.old missing.old (turned (place_at places.now 0) result) notice.new missing.new }
{
    places::first_tests(places, store)?;
    let Some(at) = places::open_at(places, number) else {
        return Err(Reason::Unknown.into());
    };
    let p = places::place_at(places, at);
    answering::answer(places[0], at, p, store, notice, missing)
}

// The notice of that message number is given up, and its place free.
pub fn drop(places: &[Place; PLACES], store: &[u8], number: u8) -> Result<Turn, Refusal>
    ensures { DropTurn places.now store.now number (turned (place_at places.now 0) result) }
{
    places::first_tests(places, store)?;
    let Some(at) = places::open_at(places, number) else {
        return Err(Reason::Unknown.into());
    };
    let dropped = places::place_at(places, at);
    Ok(Turn {
        at,
        place: dropped.freed(),
        reply: Reply::Done,
    })
}
