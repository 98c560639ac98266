// A packet comes in at the desk (paper 01, "The desk"): the four places by value, over the lent store.
ghost use Rattle.std.specs.Prelude.{◌≡◌};
ghost use Rattle.format.specs.Refusals.{seen_refusal};
ghost use Rattle.places.specs.Desk.{unplaced};
ghost use Rattle.places.specs.Places.{place_at};
ghost use Rattle.places.specs.Promises.{AcceptTurn};
ghost use Rattle.places.specs.Replies.{turned};

use format::{Reason, Refusal};
use packet::Packet;
use places::{PLACES, Place, Turn};

mod placing;

// The packet's own refusals, the first tests, then its notice where it is open, or the lowest free place.
pub fn accept(places: &[Place; PLACES], store: &mut [u8], packet: &[u8]) -> Result<Turn, Refusal>
    ensures { AcceptTurn places.now store.old packet.now (turned (place_at places.now 0) result) store.new }
{
    let r = packet::read(packet)?;
    places::first_tests(places, store)?;
    let content = &packet[Packet::CONTENT..];
    match places::open_at(places, r.number) {
        Some(i) => placing::join(places, i, store, r, content),
        None => placing::begin(places, store, r, content),
    }
}

// What a packet is refused by where the row of places is too short: its own refusal comes first.
pub fn unplaced(packet: &[u8]) -> Refusal
    ensures { seen_refusal result ≡ unplaced packet.now }
{
    match packet::read(packet) {
        Ok(_) => Reason::Room.into(),
        Err(refusal) => refusal,
    }
}
