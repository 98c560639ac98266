// Judging a record's values, before anything is written.
ghost use Rattle.std.specs.Prelude.{◌≡◌, ◌*◌, true, false};
ghost use Rattle.format.specs.Refusals.{told_of};
ghost use Rattle.walk.specs.Judging.{valued, filled, signedly_valued, made, beyond, closing};
ghost use Rattle.walk.specs.Pieces.{parts};
ghost use Rattle.walk.specs.Reading.{grouped};
ghost use Rattle.walk.specs.Walk.{seen, onward};

use crate::faults::{inside, spells};
use crate::pieces::Pieces;
use crate::walk::Walk;
use format::{Reason, Refusal};

impl Walk {
    // A record's value for a field of w bits: from lo to hi, which has at most w bits.
    pub fn value(self, w: usize, v: u64, lo: u64, hi: u64) -> Self
        ensures { seen result ≡ valued w v lo hi (seen self) }
    {
        self.on(w, true, v, inside(v, lo, hi, Reason::Range), 0)
    }

    // A record's value in two's complement for a field of w bits, which has `full` values.
    pub fn signed_value(self, w: usize, v: u64, full: u64, top: u64, bottom: u64, none: u64) -> Self
        ensures { seen result ≡ signedly_valued w v full top bottom none (seen self) }
    {
        self.on(w, true, v, spells(v, full, top, bottom, none), 0)
    }

    // A fill of w bits that a record keeps.
    pub fn fill_value(self, w: usize, v: u64) -> Self
        ensures { seen result ≡ filled w v (seen self) }
    {
        self.on(w, false, v, inside(v, 0, 0, Reason::Fill), 0)
    }

    // A field that a record does not hold: it has one good value.
    pub fn fixed(self, w: usize, v: u64) -> Self
        ensures { seen result ≡ onward w false v 0 0 (seen self) }
    {
        self.on(w, false, v, Ok(()), 0)
    }

    // A field of w bits with the value v, which is made of parts: judging them led to g.
    pub fn group(self, w: usize, v: u64, g: Pieces) -> Self
        ensures { seen result ≡ grouped w v (parts g) (seen self) }
    {
        self.on(w, true, v, g.verdict, g.into)
    }

    // How many bytes the values make, the last one filled up.
    pub fn bytes(self, seal: bool) -> usize
        ensures { result ≡ made seal self.at }
    {
        let at = self.at;
        let n = at / 8 + (at % 8 + 7) / 8;
        if seal { n + 1 } else { n }
    }

    // What writing answers before a bit is put: the values' refusal, the size that they make, room; success to go on.
    pub fn closes(self, seal: bool, least: usize, most: usize, room: usize) -> Result<(), Refusal>
        ensures { told_of result ≡ closing seal least most room (seen self) }
    {
        self.closes_before(0, seal, least, most, room)
    }

    // The same where a caller's `more` bytes follow the values: they may be more than any message has.
    pub fn closes_before(
        self,
        more: usize,
        seal: bool,
        least: usize,
        most: usize,
        room: usize,
    ) -> Result<(), Refusal>
        ensures { told_of result ≡ closing seal least most room (beyond (more * 8) 0 (seen self)) }
    {
        let head = self.bytes(seal);
        self.passed()?;
        if most < head || most - head < more {
            return Err(Reason::Size.into());
        }
        let n = head + more;
        if n < least {
            return Err(Reason::Size.into());
        }
        if room < n {
            return Err(Reason::Room.into());
        }
        Ok(())
    }
}
