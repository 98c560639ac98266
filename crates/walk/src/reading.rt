// Reading: each kind of field, from the bytes.
ghost use Rattle.std.specs.Prelude.{◌≡◌, ◌^◌, ◌<◌, true, false, cond, is_some};
ghost use Rattle.format.specs.Refusals.{number, code_of};
ghost use Rattle.walk.specs.Faults.{wholly};
ghost use Rattle.walk.specs.Reading.{given, carried, blanked, ranged, signedly, ended};
ghost use Rattle.walk.specs.Walk.{seen, at_of, width_of, onward};

use crate::faults::{clear, closing, lies_within, past, range, signs, unless_cut, whole_bytes};
use crate::walk::{Spot, Walk};
use format::Reason;

impl Walk {
    // A number from lo to hi, else refused for that reason; `free` where it may be corrected.
    pub fn number(self, s: &[u8], w: usize, free: bool, lo: u64, hi: u64, reason: Reason) -> Self
        ensures { (seen result ≡ ranged s.now w free lo hi (number reason) (seen self)) × (result.v < 2 ^ w) }
    {
        let at = self.at;
        self.on(
            w,
            free,
            bits::get(s, at, w),
            range(s, at, w, lo, hi, reason),
            0,
        )
    }

    // A number from lo to hi.
    pub fn num(self, s: &[u8], w: usize, lo: u64, hi: u64) -> Self
        ensures { (seen result ≡ ranged s.now w true lo hi 4 (seen self)) × (result.v < 2 ^ w) }
    {
        self.number(s, w, true, lo, hi, Reason::Range)
    }

    // A number from lo to hi that decides what follows.
    pub fn decide(self, s: &[u8], w: usize, lo: u64, hi: u64) -> Self
        ensures { (seen result ≡ ranged s.now w false lo hi 4 (seen self)) × (result.v < 2 ^ w) }
    {
        self.number(s, w, false, lo, hi, Reason::Range)
    }

    // A number that decides what follows and that the caller judged.
    pub fn given(self, s: &[u8], w: usize, judged: Result<(), Reason>) -> Self
        ensures { (seen result ≡ given s.now w (code_of judged) (seen self)) × (result.v < 2 ^ w) }
    {
        let at = self.at;
        let there = bits::holds(s.len(), at, w);
        self.on(w, false, bits::get(s, at, w), unless_cut(there, judged), 0)
    }

    // Content of w bits, of which no number is made.
    pub fn content(self, s: &[u8], w: u32) -> Self
        ensures { seen result ≡ carried s.now w (seen self) }
    {
        let at = self.at;
        let there = lies_within(s.len(), at, w);
        self.wide(w as usize, unless_cut(there, Ok(())))
    }

    // A fixed code.
    pub fn code(self, s: &[u8], w: usize, n: u64) -> Self
        ensures { seen result ≡ ranged s.now w false n n 2 (seen self) }
    {
        self.number(s, w, false, n, n, Reason::Kind)
    }

    // Fill.
    pub fn fill(self, s: &[u8], w: usize) -> Self
        ensures { seen result ≡ ranged s.now w false 0 0 5 (seen self) }
    {
        self.number(s, w, false, 0, 0, Reason::Fill)
    }

    // Fill of up to 64 bits, looked at in two halves.
    #[inline]
    pub fn blank(self, s: &[u8], w: u32) -> Self
        ensures { seen result ≡ blanked s.now w (seen self) }
    {
        let at = self.at;
        self.wide(w as usize, clear(s, at, w))
    }

    // How many whole bytes are left: no bits.
    pub fn rest(self, s: &[u8]) -> Self
        ensures { seen result ≡ onward 0 false (wholly s.now self.at) 0 0 (seen self) }
    {
        let at = self.at;
        self.on(0, false, whole_bytes(s.len(), at), Ok(()), 0)
    }

    // A number of two's complement with the value v: from 0 to `top`, from `bottom` up, or `none`.
    pub fn signed(self, s: &[u8], w: usize, top: u64, bottom: u64, none: u64) -> Self
        ensures { (seen result ≡ signedly s.now w top bottom none (seen self)) × (result.v < 2 ^ w) }
    {
        let at = self.at;
        self.on(
            w,
            true,
            bits::get(s, at, w),
            signs(s, at, w, top, bottom, none),
            0,
        )
    }

    // The end: zero bits up to a whole byte, then nothing.
    pub fn end(self, s: &[u8]) -> Self
        ensures { seen result ≡ ended s.now (seen self) }
    {
        let at = self.at;
        let closed = closing(s, at);
        let into = past(closed, at);
        Walk {
            at,
            verdict: self.judged(closed, into),
            v: 0,
            sought: None,
            spot: self.spot_found(),
        }
    }

    // Where the sought field stood, behind all fields: none where it is still sought.
    fn spot_found(self) -> Option<Spot>
        ensures found { is_some result ≡ cond (seen self).seek false (is_some self.spot) }
        ensures place { at_of result ≡ cond (seen self).seek 0 (at_of self.spot) }
        ensures width { width_of result ≡ cond (seen self).seek 0 (width_of self.spot) }
    {
        match self.sought {
            Some(_) => None,
            None => self.spot,
        }
    }
}
