// A place of the desk (paper 01, "The desk"), by value; the tests of all four are in `four`.
#![tactic(auto)]

ghost use Rattle.std.specs.Prelude.{◌≡◌, Ok, not, cond, ◌&&◌, [], ◌∷◌, ltb};
ghost use Rattle.packet.specs.Packet.{most_packets, part_bytes_of};
ghost use Rattle.format.specs.Refusals.{told_of};
ghost use Rattle.places.specs.Replies.{said, turned};
ghost use Rattle.places.specs.Places.{every_below, lacks, entry_good, good_place, passes, serves, clash, freed};
ghost use Rattle.places.specs.Desk.{laid_within, refusal_of, stays, turn_of};

pub use crate::four::{first_tests, free_at, open_at, place_at};
use format::{Reason, Refusal};
use packet::{JOINED, MOST, PART};

pub mod four;

// Laid out as in C, since rust/trial lends rows of places (`c_trial`).
#[repr(C)]
#[derive(Clone, Copy)]
pub struct Place {
    pub open: bool,
    // The message number of its notice.
    pub number: u8,
    // 0 Chinese, 1 English.
    pub language: u8,
    // How many packets the notice has.
    pub total: u8,
    // How many bytes of each packet are held; 0 where it is not held.
    pub sizes: [u8; MOST],
}

#[derive(Clone, Copy)]
pub enum Reply {
    // A packet accepted, a notice dropped.
    Done,
    // The same packet again.
    Again,
    // The notice is handed out: how many bytes, and the language.
    Joined(usize, u8),
    // It is not complete: how many numbers are missing.
    Missing(usize),
}

// What a call makes of the places: place `at` becomes `place`, and no other changes.
// Where none changes it is the first one again, and no Option: `refused_accept_turn` and its like (`proofs/Laws/Refused`) speak of
// `place` stored at `at` then too, and the wrong builds `second_place_stays` and `anothers_place_stays` of which place it is.
#[derive(Clone, Copy)]
pub struct Turn {
    pub at: usize,
    pub place: Place,
    pub reply: Reply,
}

pub const PLACES: usize = 4;

pub const STORE: usize = PLACES * JOINED;

impl Reply {
    // What is told of it: 9 for a list of missing numbers.
    pub fn told(self) -> Result<(), Refusal>
        ensures { told_of result ≡ refusal_of (said self) }
    {
        match self {
            Reply::Done | Reply::Again | Reply::Joined(_, _) => Ok(()),
            Reply::Missing(_) => Err(Reason::Incomplete.into()),
        }
    }
}

impl Turn {
    // No place changes: the first one again.
    pub fn staying(first: Place, reply: Reply) -> Turn
        ensures { turned first (Ok result) ≡ turn_of (first ∷ []) (said reply) stays }
    {
        Turn {
            at: 0,
            place: first,
            reply,
        }
    }
}

impl Place {
    // What an open place must show: its total within its range, a packet held, every entry good.
    fn good(&self) -> bool
        ensures { result ≡ good_place self.now }
    {
        1 <= self.total && self.total as usize <= MOST && self.entries_good()
    }

    // Whether a packet is held, every held number is below the total and every held size at most a packet's. Nothing leaves the
    // loop early, so that the compiler takes many entries at once.
    fn entries_good(&self) -> bool
        ensures { result ≡ (not (every_below most_packets (lacks self.now)) && every_below most_packets (entry_good self.now)) }
    {
        let mut good = true;
        let mut most: u8 = 0;
        for (k, n) in self.sizes.iter().enumerate() {
            good &= *n <= size_limit(k as u8, self.total);
            most = most.max(*n);
        }
        most != 0 && good
    }

    // A closed place's other entries are not looked at.
    pub(crate) fn passes(&self) -> bool
        ensures { result ≡ passes self.now }
    {
        !self.open || self.good()
    }

    pub(crate) fn clashes(&self, other: &Place) -> bool
        ensures { result ≡ clash self.now other.now }
    {
        other.open && self.serves(other.number)
    }

    // Whether it is open, with that message number.
    pub(crate) fn serves(&self, number: u8) -> bool
        ensures { result ≡ serves self.now number }
    {
        self.open && self.number == number
    }

    // Freed: only the open mark is cleared.
    pub fn freed(mut self) -> Place
        ensures { result ≡ freed self }
    {
        self.open = false;
        self
    }
}

// The greatest size of packet number `k` that may be held.
fn size_limit(k: u8, total: u8) -> u8
    ensures { result ≡ cond (ltb k total) part_bytes_of 0 }
{
    if k < total { PART as u8 } else { 0 }
}

// Puts the bytes `part` into `s` from byte `at` on, where they fit; else every byte stays.
pub fn lay(s: &mut [u8], at: usize, part: &[u8])
    ensures { s.new ≡ laid_within s.old at part.now }
{
    if at > s.len() {
        return;
    }
    if part.len() > s.len() - at {
        return;
    }
    s[at..at + part.len()].copy_from_slice(part);
}
