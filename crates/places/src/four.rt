// The four places of the desk (paper 01, "The desk"): the first tests of every call, and which place is meant.
ghost use Rattle.std.specs.Prelude.{◌≡◌, cond, ltb};
ghost use Rattle.format.specs.Refusals.{code_of};
ghost use Rattle.places.specs.Places.{all_apart, place_at, good_places, open_at, free_at, one_of_four};
ghost use Rattle.places.specs.Desk.{first_tests};

use crate::{PLACES, Place, STORE};
use format::Reason;

// The first tests of every call: a store too short (6), then the places themselves (4).
pub fn first_tests(places: &[Place; PLACES], store: &[u8]) -> Result<(), Reason>
    ensures { code_of result ≡ first_tests places.now store.now }
{
    if store.len() < STORE {
        return Err(Reason::Room);
    }
    if !sound(places) {
        return Err(Reason::Range);
    }
    Ok(())
}

// Whether no two are open with one number, and each that is open is good.
fn sound(places: &[Place; PLACES]) -> bool
    ensures { result ≡ good_places places.now }
{
    apart(places) && places.iter().all(|p| p.passes())
}

// Whether no two are open with one number.
fn apart(places: &[Place; PLACES]) -> bool
    ensures { result ≡ all_apart places.now }
{
    for (i, p) in places.iter().enumerate() {
        for q in &places[..i] {
            if q.clashes(p) {
                return false;
            }
        }
    }
    true
}

// The open place of that message number.
pub fn open_at(places: &[Place; PLACES], number: u8) -> Option<usize>
    ensures { result ≡ one_of_four (open_at places.now number) }
{
    places.iter().position(|p| p.serves(number))
}

// The lowest free place.
pub fn free_at(places: &[Place; PLACES]) -> Option<usize>
    ensures { result ≡ one_of_four (free_at places.now) }
{
    places.iter().position(|p| !p.open)
}

// Place number `i`; the last one for a greater number.
pub fn place_at(places: &[Place; PLACES], i: usize) -> Place
    ensures { result ≡ place_at places.now (cond (ltb i 3) i 3) }
{
    places[i.min(PLACES - 1)]
}
