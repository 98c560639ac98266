// The desk (paper 01, "The desk") over a lent row of places: a packet comes in, a notice is asked for, a notice is dropped. Each call takes the first four places, and one of them may become another.
#![tactic(auto)]

ghost use Rattle.std.specs.Prelude.{◌≡◌, ◌≤◌, length};
ghost use Rattle.places.specs.Places.{four_places, front};
ghost use Rattle.places.specs.Promises.{Accepts, Asks, Drops};
ghost use Rattle.places.specs.Replies.{replied};

use format::{Reason, Refusal};
use places::{PLACES, Place, Reply};

pub mod accepting;
pub mod asking;

// What asking and dropping are refused by where the row is too short.
const SHORT: Refusal = Refusal {
    reason: Reason::Room,
    bit: 0,
};

// A packet comes in. Its own refusal comes before that of a row too short.
pub fn accept(places: &mut [Place], store: &mut [u8], packet: &[u8]) -> Result<Reply, Refusal>
    ensures { Accepts places.old store.old packet.now (replied result) places.new store.new }
{
    if places.len() < PLACES {
        return Err(crate::accepting::unplaced(packet));
    }
    let four = front(places);
    let accepted = crate::accepting::accept(&four, store, packet)?;
    places[accepted.at] = accepted.place;
    Ok(accepted.reply)
}

// A notice is asked for: its bytes go into `notice`, or the numbers that are missing into `missing`.
pub fn ask(
    places: &mut [Place],
    store: &[u8],
    number: u8,
    notice: &mut [u8],
    missing: &mut [u16],
) -> Result<Reply, Refusal>
    ensures { Asks places.old store.now number notice.old missing.old (replied result) places.new notice.new missing.new }
{
    if places.len() < PLACES {
        return Err(SHORT);
    }
    let four = front(places);
    let asked = crate::asking::ask(&four, store, number, notice, missing)?;
    places[asked.at] = asked.place;
    Ok(asked.reply)
}

// A notice is dropped.
pub fn drop(places: &mut [Place], store: &[u8], number: u8) -> Result<Reply, Refusal>
    ensures { Drops places.old store.now number (replied result) places.new }
{
    if places.len() < PLACES {
        return Err(SHORT);
    }
    let four = front(places);
    let dropped = crate::asking::drop(&four, store, number)?;
    places[dropped.at] = dropped.place;
    Ok(dropped.reply)
}

// The first four places, by value.
fn front(places: &[Place]) -> [Place; PLACES]
    requires { four_places ≤ length places.now }
    ensures { result ≡ front places.now }
{
    [places[0], places[1], places[2], places[3]]
}
