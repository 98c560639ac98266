// The entries of a tide telegram that is written: good ones are judged as a whole, and each is put as one number of 32 bits.
ghost use Rattle.std.specs.Prelude.{true, ◌≡◌, ◌+◌, ◌*◌, ◌^◌, ◌≤◌, ◌<◌};
ghost use Rattle.tide.specs.Making.{entries_judged, three_put, entries_put};
ghost use Rattle.tide.specs.RowEntries.{GoodEntry, GoodEntries, Passes};
ghost use Rattle.walk.specs.Walk.{seen};

use crate::entries::good;
use crate::row::{ENTRY, TIME};
use crate::writing::making::SOME_TIME;
use walk::making::entry;
use walk::walk::Walk;

// No message comes near this bit.
const FAR: usize = 0x1_0000_0000;

// ---- judging

// Whether n entries, at least one, are all in the row and good, and the walk has refused nothing and seeks no field. Where not,
// they are judged one by one.
pub(crate) fn all_good(w: Walk, row: &[u32], k: usize, n: usize) -> bool
    requires { (n ≤ 511) × (k ≤ 2 ^ 41) }
    ensures { result ≡ true → Passes row.now n k (seen w) }
{
    w.verdict.is_ok() && w.sought.is_none() && w.at < FAR && n != 0 && good_entries(row, k, n)
}

// The walk behind n good entries.
pub(crate) fn pass(w: Walk, row: &[u32], k: usize, n: usize) -> Walk
    requires { (n ≤ 511) × (k ≤ 2 ^ 41) × (Passes row.now n k (seen w)) }
    ensures { seen result ≡ entries_judged row.now n k (seen w) }
{
    Walk {
        at: w.at + n * ENTRY,
        verdict: Ok(()),
        v: entry(row, k + n * 3 - 1, 1),
        sought: None,
        spot: w.spot,
    }
}

// Whether n entries are in the row and good.
fn good_entries(row: &[u32], k: usize, n: usize) -> bool
    requires { (n ≤ 511) × (k ≤ 2 ^ 41) }
    ensures { result ≡ true → GoodEntries row.now n k }
{
    if row.len() < k + n * 3 {
        return false;
    }
    for j in 0..n {
        let i = k + j * 3;
        if !good_entry(row[i], row[i + 1], row[i + 2]) {
            return false;
        }
    }
    true
}

// Whether an entry's time, sign and value fit their bits, and are good together.
fn good_entry(time: u32, sign: u32, value: u32) -> bool
    ensures { result ≡ true → GoodEntry time sign value }
{
    let time = u64::from(time);
    let sign = u64::from(sign);
    let value = u64::from(value);
    fit(time, sign, value) && good(packed(time, sign, value))
}

// ---- putting

// Time, sign and value of n entries, of which the row may not have all numbers.
pub(crate) fn put_each(buf: &mut [u8], at: usize, row: &[u32], k: usize, n: usize)
    requires { (n ≤ 511) × (k ≤ 2 ^ 41) × (at ≤ 2 ^ 41) }
    ensures { buf.new ≡ entries_put row.now n k at buf.old }
{
    for j in 0..n {
        let i = k + j * 3;
        let time = entry(row, i, SOME_TIME);
        let sign = entry(row, i + 1, 1);
        let value = entry(row, i + 2, 1);
        put_entry(buf, at + j * ENTRY, time, sign, value);
    }
}

// An entry at bit `at`: in one put where its three numbers fit, and where the buffer holds them.
pub(crate) fn put_entry(buf: &mut [u8], at: usize, time: u64, sign: u64, value: u64)
    requires { at ≤ 2 ^ 42 }
    ensures { buf.new ≡ three_put time sign value at buf.old }
{
    if fit(time, sign, value) && bits::holds(buf.len(), at, ENTRY) {
        let all = packed(time, sign, value);
        bits::put(buf, at, ENTRY, all);
        return;
    }
    bits::put(buf, at, TIME, time);
    bits::put(buf, at + TIME, 1, sign);
    bits::put(buf, at + TIME + 1, 10, value);
}

// Whether an entry's three numbers have no more bits than their fields.
fn fit(time: u64, sign: u64, value: u64) -> bool
    ensures { result ≡ true → (time < 2 ^ 21) × (sign < 2 ^ 1) × (value < 2 ^ 10) }
{
    time < 0x20_0000 && sign < 2 && value < 1_024
}

// An entry's 32 bits, as one number.
fn packed(time: u64, sign: u64, value: u64) -> u64
    requires { (time < 2 ^ 21) × (sign < 2 ^ 1) × (value < 2 ^ 10) }
    ensures { result ≡ (time * 2 ^ 1 + sign) * 2 ^ 10 + value }
{
    (time * 2 + sign) * 1_024 + value
}
