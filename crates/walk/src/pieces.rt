// A number made of parts.
ghost use Rattle.std.specs.Prelude.{◌≡◌, ◌-◌, ◌*◌, ◌/◌, ◌%◌, ◌^◌, min, []};
ghost use Rattle.format.specs.Words.{◌‥◌};
ghost use Rattle.walk.specs.Pieces.{parts, unpieced, lying, ahead, pieced, unless_zero};

use crate::faults::{inside, lies_within, unless_cut};
use format::Reason;

// A number made of parts, judged one by one from its highest bits down.
#[derive(Clone, Copy)]
pub struct Pieces {
    // The bits that there are, as a number, and how many they are.
    pub v: u64,
    pub width: usize,
    // How many of them are not judged yet.
    pub left: usize,
    // The first refusal, and how many bits in the part stands that was judged last.
    pub verdict: Result<(), Reason>,
    pub into: usize,
}

impl Pieces {
    // A number for a field of w bits.
    pub fn of(w: usize, v: u64) -> Self
        ensures { parts result ≡ unpieced w v }
    {
        Pieces {
            v,
            width: w,
            left: w,
            verdict: inside(above(v, w), 0, 0, Reason::Range),
            into: 0,
        }
    }

    // Of a field of w bits at bit `at`, the bits that there are.
    pub fn at(s: &[u8], at: usize, w: u32) -> Self
        ensures { parts result ≡ lying s.now at w }
    {
        let n = bits_there(s.len(), at, w);
        Pieces::of(n, bits::get(s, at, n))
    }

    // The next w bits.
    pub fn ahead(self, w: usize) -> u64
        ensures { result ≡ ahead w (parts self) }
    {
        below(above(self.v, self.left.saturating_sub(w)), w)
    }

    // The next part, of w bits, from lo to hi. Behind a refusal nothing is judged.
    pub fn piece(self, w: usize, lo: u64, hi: u64) -> Self
        ensures { parts result ≡ pieced w 4 ((lo ‥ hi) []) (parts self) }
    {
        if self.verdict.is_err() {
            return self;
        }
        let u = self.ahead(w);
        Pieces {
            left: self.left.saturating_sub(w),
            verdict: unless_cut(w <= self.left, inside(u, lo, hi, Reason::Range)),
            into: self.width.saturating_sub(self.left),
            ..self
        }
    }

    // w zero bits are good too.
    pub fn or_zero(self, w: usize) -> Self
        ensures { parts result ≡ unless_zero w (parts self) }
    {
        if self.width == w && self.v == 0 {
            return Pieces {
                verdict: Ok(()),
                ..self
            };
        }
        self
    }
}

// How many of the w bits from bit `at` on lie within `len` bytes.
fn bits_there(len: usize, at: usize, w: u32) -> usize
    ensures { result ≡ min w (len * 8 - at) }
{
    if lies_within(len, at, w) {
        return w as usize;
    }
    if len <= at / 8 {
        return 0;
    }
    (len - at / 8) * 8 - at % 8
}

// What stands above the n low bits, and the n low bits.
fn above(v: u64, n: usize) -> u64
    ensures { result ≡ v / 2 ^ n }
{
    if n < 64 { v >> n } else { 0 }
}

fn below(v: u64, n: usize) -> u64
    ensures { result ≡ v % 2 ^ n }
{
    if n < 64 {
        let full = 1 << n;
        return v % full;
    }
    v
}
