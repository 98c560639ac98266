// Entries of a tide record (paper 02, C-11): good ones are passed many at once, each by its 32 bits; any other is walked by its fields.
ghost use Rattle.std.specs.Prelude.{true, ◌≡◌, ◌+◌, ◌-◌, ◌*◌, ◌/◌, ◌^◌, ◌≤◌, ◌<◌, length, is_some};
ghost use Rattle.tide.specs.Entries.{Good, word_at, AllGood, Unsought, Passes, run};
ghost use Rattle.walk.specs.Walk.{seen, left_of};

use crate::reading::Tide;
use crate::row::{ENTRY, TIME};
use walk::walk::Walk;

// The bits of a value, which ends an entry.
pub const VALUE: usize = 10;

// An entry is as long as so many bytes.
pub const BYTES: usize = ENTRY / 8;

// The walk behind some entries, and how many they are.
#[derive(Clone, Copy)]
pub struct Run {
    pub walk: Walk,
    pub count: u64,
}

// Past at least one of n entries: the good ones from here on, up to a field that is sought, or else the first alone.
pub(crate) fn pass(s: &[u8], w: Walk, n: u64) -> Run
    requires { (1 ≤ n) × ((seen w).code ≡ 0) }
    ensures { Passes s.now n (seen w) (run result) }
{
    let at = w.at;
    let most = unsought(w, reach(s.len(), at, n));
    let count = good_from(s, at, most);
    if count == 0 {
        let walk = crate::records::entry(s, w);
        return Run { walk, count: 1 };
    }
    let end = at + count * ENTRY;
    let last = end - VALUE;
    let walk = Walk {
        at: end,
        verdict: Ok(()),
        v: bits::get(s, last, VALUE),
        sought: behind(w.sought, count * 3),
        spot: w.spot,
    };
    Run {
        walk,
        count: count as u64,
    }
}

// How many fields stand before the sought one, behind m of them that are passed.
fn behind(sought: Option<usize>, m: usize) -> Option<usize>
    ensures { (is_some result ≡ is_some sought) × (left_of result ≡ left_of sought - m) }
{
    sought.map(|left| left.saturating_sub(m))
}

// How many of n entries from bit `at` on have five bytes each that hold them, in a message that is not too long for a telegram.
fn reach(len: usize, at: usize, n: u64) -> usize
    ensures { (result ≤ n) × (result * 4 ≤ 210 - (at / 8 + 1)) × (result * 4 ≤ len - (at / 8 + 1)) }
{
    if len > Tide::GREATEST {
        return 0;
    }
    let there = len.saturating_sub(at / 8 + 1) / BYTES;
    n.min(there as u64) as usize
}

// How many of n entries stand before a field that is sought.
fn unsought(w: Walk, n: usize) -> usize
    ensures { (result ≤ n) × Unsought (result * 3) (seen w) }
{
    match w.sought {
        Some(left) => n.min(left / 3),
        None => n,
    }
}

// How many of n entries from bit `at` on are good, up to the first that is not.
fn good_from(s: &[u8], at: usize, n: usize) -> usize
    requires { n * 4 ≤ length s.now - (at / 8 + 1) }
    ensures { (result ≤ n) × AllGood s.now at result }
{
    let from = at / 8;
    let skip = at % 8;
    for j in 0..n {
        let bits = word_of_five(s, from + j * BYTES, skip);
        if !good(bits) {
            return j;
        }
    }
    n
}

// Time, sign and value of the entry that begins `skip` bits into byte `from`, as one number; what is not there is 0.
pub(crate) fn word(s: &[u8], from: usize, skip: usize) -> u64
    requires { (from ≤ 2 ^ 32) × (skip < 8) }
    ensures { result ≡ word_at s.now (from * 8 + skip) }
{
    if s.len() < from + 5 {
        return word_at_end(s, from * 8 + skip);
    }
    word_of_five(s, from, skip)
}

// The same, where five bytes hold it.
fn word_of_five(s: &[u8], from: usize, skip: usize) -> u64
    requires { (from + 5 ≤ length s.now) × (skip < 8) }
    ensures { result ≡ word_at s.now (from * 8 + skip) }
{
    let all = spelled(s[from], s[from + 1], s[from + 2], s[from + 3], s[from + 4]);
    (all >> (8 - skip)) % 4_294_967_296
}

// The same, where no fifth byte holds it, or where it is cut.
fn word_at_end(s: &[u8], at: usize) -> u64
    requires { at ≤ 2 ^ 36 }
    ensures { result ≡ word_at s.now at }
{
    let time = bits::get(s, at, TIME);
    let sign = bits::get(s, at + TIME, 1);
    let value = bits::get(s, at + TIME + 1, VALUE);
    time * 2_048 + (sign * 1_024 + value)
}

// The number that five bytes spell, highest first: the first four in such a form that the compiler loads them at once.
fn spelled(a: u8, b: u8, c: u8, d: u8, e: u8) -> u64
    ensures { result ≡ (((a * 256 + b) * 256 + c) * 256 + d) * 256 + e }
{
    let high = a as u64 * 16_777_216 + b as u64 * 65_536 + c as u64 * 256 + d as u64;
    high * 256 + e as u64
}

// Whether the 32 bits of an entry are good.
pub(crate) fn good(v: u64) -> bool
    ensures { result ≡ true → Good v }
{
    matches!((v >> 27) % 16, 1..=12)
        && (v >> 22) % 32 >= 1
        && (v >> 17) % 32 <= 23
        && (v >> 11) % 64 <= 59
        && v % 2_048 >= 1
}
