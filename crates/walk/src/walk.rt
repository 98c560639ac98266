// The walk over a message's fields, in bit order: it carries its own offset, and the first refusal sticks.
ghost use Rattle.std.specs.Prelude.{◌≡◌, ◌-◌, ◌&&◌, ◌==◌, true, false, cond, is_some};
ghost use Rattle.format.specs.Refusals.{code_of, told_of, shown};
ghost use Rattle.walk.specs.Walk.{seen, left_of, at_of, width_of, begun, sticks, hits, onward};

use format::{Reason, Refusal};

// Where a field that may be corrected stands, and its width.
#[derive(Clone, Copy, PartialEq, Eq)]
pub struct Spot {
    pub at: usize,
    pub width: usize,
}

#[derive(Clone, Copy)]
pub struct Walk {
    // The bit where the next field starts.
    pub at: usize,
    // The first refusal, and the bit where it arose.
    pub verdict: Result<(), Refusal>,
    // The value of the field just walked.
    pub v: u64,
    // How many fields stand before the one that is sought, until it is found.
    pub sought: Option<usize>,
    // Where it stood: none where it may not be corrected.
    pub spot: Option<Spot>,
}

impl Walk {
    // The start of a message, with field number `want` sought.
    pub fn begin(want: usize) -> Self
        ensures { seen result ≡ begun 0 want }
    {
        Walk {
            at: 0,
            verdict: Ok(()),
            v: 0,
            sought: Some(want),
            spot: None,
        }
    }

    // Over a field of w bits with the value v: what is wrong with it arose `into` bits in.
    pub fn on(self, w: usize, free: bool, v: u64, judged: Result<(), Reason>, into: usize) -> Self
        ensures { seen result ≡ onward w free v (code_of judged) into (seen self) }
    {
        let at = self.at;
        Walk {
            at: std::num::wrapping_add_usize(at, w),
            verdict: self.judged(judged, into),
            v,
            sought: self.sought_behind(),
            spot: self.spot_behind(w, free),
        }
    }

    // The verdict with one more judgement, of what stands `into` bits on: the first refusal stays. What is good is not asked for the
    // verdict so far, so that good fields cost one test each.
    pub(crate) fn judged(self, judged: Result<(), Reason>, into: usize) -> Result<(), Refusal>
        ensures { told_of result ≡ sticks (code_of judged) into (seen self) }
    {
        match judged {
            Err(reason) if self.verdict.is_ok() => Err(Refusal {
                reason,
                bit: std::num::wrapping_add_usize(self.at, into),
            }),
            _ => self.verdict,
        }
    }

    // How many fields stand before the sought one, behind this one.
    fn sought_behind(self) -> Option<usize>
        ensures seek { is_some result ≡ ((seen self).seek && cond ((seen self).left == 0) false true) }
        ensures left { left_of result ≡ (seen self).left - 1 }
    {
        match self.sought {
            Some(0) => None,
            Some(left) => Some(left - 1),
            None => None,
        }
    }

    // Where the sought field stood, behind this one, of w bits.
    fn spot_behind(self, w: usize, free: bool) -> Option<Spot>
        ensures found { is_some result ≡ cond (hits (seen self)) free (is_some self.spot) }
        ensures place { at_of result ≡ cond (hits (seen self)) (cond free self.at 0) (at_of self.spot) }
        ensures width { width_of result ≡ cond (hits (seen self)) (cond free w 0) (width_of self.spot) }
    {
        match self.sought {
            Some(0) if free => Some(Spot {
                at: self.at,
                width: w,
            }),
            Some(0) => None,
            _ => self.spot,
        }
    }

    // Whether the walk was passed so far, or what is told of its first refusal.
    pub fn passed(self) -> Result<(), Refusal>
        ensures { told_of result ≡ shown (seen self).code (seen self).offset }
    {
        match self.verdict {
            Ok(()) => Ok(()),
            Err(refusal) => Err(Refusal::shown(refusal.reason, refusal.bit)),
        }
    }

    // Over content or text of w bits, any number of them, that the caller judged.
    pub fn wide(self, w: usize, judged: Result<(), Reason>) -> Self
        ensures { seen result ≡ onward w false 0 (code_of judged) 0 (seen self) }
    {
        self.on(w, false, 0, judged, 0)
    }
}
