// Writing a tide telegram from a row of numbers, step by step: judged in bit order, then put.
ghost use Rattle.std.specs.Prelude.{◌≡◌, ◌^◌, ◌≤◌};
ghost use Rattle.tide.specs.Making.{entry_judged, entries_judged, placed_judged, record_judged, records_judged, entries_put, placed_put, record_put, records_put};
ghost use Rattle.tide.specs.Standing.{front};
ghost use Rattle.tide.specs.Written.{TideJudged, HeadPut, TidePut};
ghost use Rattle.walk.specs.Walk.{seen, stepped};

use crate::reading::{CLASS, CODE, Tide, VERSION};
use crate::records::{HIGHEST, MOST, PORT};
use crate::row::ENTRY;
use crate::writing::entries::{all_good, pass, put_each, put_entry};
use notice_fields::parts::{LATITUDE, LONGITUDE, POINT};
use walk::making::{Laid, Stepped, entry};
use walk::walk::Walk;

// What nine bits can tell: 0 to 511 entries.
const COUNTS: u64 = 512;

// What counts for a number that the row has not is good: of a time 1 January, 0:00. So a row that is too short is refused for
// that alone (6, last).
pub(crate) const SOME_TIME: u64 = 0x1_0800;

// ---- judging

// The values in bit order, and how many numbers of the row were asked for. A refused count is not walked.
pub(crate) fn judged(r: Tide, row: &[u32]) -> Stepped
    ensures { TideJudged r row.now (stepped result) }
{
    let kind = Walk::begin(0).fixed(8, CODE).fixed(3, VERSION);
    let head = kind.fixed(1, CLASS).value(9, u64::from(r.count), 1, MOST);
    if head.verdict.is_err() {
        return Stepped {
            walk: head,
            next: 0,
        };
    }
    judge_records(head, row, r.count)
}

// The first refused record ends it.
fn judge_records(from: Walk, row: &[u32], count: u16) -> Stepped
    ensures { stepped result ≡ records_judged row.now count 0 (seen from) }
{
    let mut w = from;
    let mut k: usize = 0;
    for _ in 0..count {
        let record = judge_record(w, row, k);
        w = record.walk;
        k = record.next;
        if w.verdict.is_err() {
            break;
        }
    }
    Stepped { walk: w, next: k }
}

// The record whose numbers begin with k; behind a refused count no entry is walked.
fn judge_record(from: Walk, row: &[u32], k: usize) -> Stepped
    requires { k ≤ 2 ^ 40 }
    ensures { stepped result ≡ record_judged row.now k (seen from) }
{
    let kind = entry(row, k, PORT);
    let place = judge_place(from.value(1, kind, 0, 1), row, k + 1, kind);
    let next = place.next;
    let behind = place.walk;
    let mark = behind.value(1, entry(row, next, 0), 0, 1);
    let n = entry(row, next + 1, 1);
    let c = mark.value(9, n, 1, MOST);
    let first = next + 1 + 1;
    if c.verdict.is_err() {
        return Stepped {
            walk: c,
            next: first,
        };
    }
    let walk = judge_entries(c, row, first, n as usize);
    Stepped {
        walk,
        next: first + n as usize * 3,
    }
}

// A position of type `kind`.
fn judge_place(w: Walk, row: &[u32], k: usize, kind: u64) -> Stepped
    requires { k ≤ 2 ^ 41 }
    ensures { stepped result ≡ placed_judged row.now kind k (seen w) }
{
    if kind == PORT {
        let walk = w.value(6, entry(row, k, 0), 0, 63);
        return Stepped { walk, next: k + 1 };
    }
    let latitude = notice_fields::parts::judged_latitude(w, entry(row, k, 0));
    let walk = notice_fields::parts::judged_longitude(latitude, entry(row, k + 1, 0));
    Stepped { walk, next: k + 2 }
}

// Time, sign and value of n entries: one by one only where one of them is refused.
fn judge_entries(from: Walk, row: &[u32], k: usize, n: usize) -> Walk
    requires { (n ≤ 511) × (k ≤ 2 ^ 41) }
    ensures { seen result ≡ entries_judged row.now n k (seen from) }
{
    if all_good(from, row, k, n) {
        return pass(from, row, k, n);
    }
    let mut w = from;
    for j in 0..n {
        w = judge_entry(w, row, k + j * 3);
    }
    w
}

fn judge_entry(w: Walk, row: &[u32], k: usize) -> Walk
    requires { k ≤ 2 ^ 42 }
    ensures { seen result ≡ entry_judged row.now k (seen w) }
{
    let sign = entry(row, k + 1, 1);
    let time = notice_fields::parts::judged_time(w, entry(row, k, SOME_TIME));
    let signed = time.value(1, sign, 0, 1);
    signed.value(
        10,
        entry(row, k + 2, 1),
        crate::records::least(sign),
        HIGHEST,
    )
}

// ---- putting what was judged

pub(crate) fn put(buf: &mut [u8], r: Tide, row: &[u32])
    ensures { TidePut r row.now buf.old buf.new }
{
    put_head(buf, r.count);
    let end = put_records(buf, row, r.count);
    change::putting::fill(buf, end.at);
}

fn put_head(buf: &mut [u8], count: u16)
    ensures { HeadPut count buf.old buf.new }
{
    bits::put(buf, 0, 8, CODE);
    bits::put(buf, 8, 3, VERSION);
    bits::put(buf, 11, 1, CLASS);
    bits::put(buf, 12, 9, u64::from(count));
}

// The numbers of the first `count` records: where they end. Of a row that was not judged, a count of entries is taken by its nine
// bits, so that it ends soon for every row.
fn put_records(buf: &mut [u8], row: &[u32], count: u16) -> Laid
    ensures { (result, buf.new) ≡ records_put row.now count 0 front buf.old }
{
    let mut at = Tide::BITS;
    let mut k: usize = 0;
    for _ in 0..count {
        let record = put_record(buf, at, row, k);
        at = record.at;
        k = record.next;
    }
    Laid { at, next: k }
}

// The record whose numbers begin with k.
fn put_record(buf: &mut [u8], at: usize, row: &[u32], k: usize) -> Laid
    requires { (k ≤ 2 ^ 40) × (at ≤ 2 ^ 40) }
    ensures { (result, buf.new) ≡ record_put row.now k at buf.old }
{
    let kind = entry(row, k, PORT);
    bits::put(buf, at, 1, kind);
    let place = put_place(buf, at + 1, row, k + 1, kind);
    let mark = place.at;
    let next = place.next;
    bits::put(buf, mark, 1, entry(row, next, 0));
    let counted = entry(row, next + 1, 1);
    bits::put(buf, mark + 1, 9, counted);
    let n = (counted % COUNTS) as usize;
    let first = mark + 1 + 9;
    let from = next + 1 + 1;
    put_entries(buf, first, row, from, n);
    Laid {
        at: first + n * ENTRY,
        next: from + n * 3,
    }
}

// A position of type `kind`.
fn put_place(buf: &mut [u8], at: usize, row: &[u32], k: usize, kind: u64) -> Laid
    requires { (k ≤ 2 ^ 41) × (at ≤ 2 ^ 41) }
    ensures { (result, buf.new) ≡ placed_put row.now kind k at buf.old }
{
    if kind == PORT {
        bits::put(buf, at, 6, entry(row, k, 0));
        return Laid {
            at: at + 6,
            next: k + 1,
        };
    }
    bits::put(buf, at, LATITUDE, entry(row, k, 0));
    bits::put(buf, at + LATITUDE, LONGITUDE, entry(row, k + 1, 0));
    Laid {
        at: at + POINT,
        next: k + 2,
    }
}

// Time, sign and value of n entries.
fn put_entries(buf: &mut [u8], at: usize, row: &[u32], k: usize, n: usize)
    requires { (n ≤ 511) × (k ≤ 2 ^ 41) × (at ≤ 2 ^ 41) }
    ensures { buf.new ≡ entries_put row.now n k at buf.old }
{
    if row.len() < k + n * 3 {
        put_each(buf, at, row, k, n);
        return;
    }
    for j in 0..n {
        let i = k + j * 3;
        let time = u64::from(row[i]);
        let sign = u64::from(row[i + 1]);
        let value = u64::from(row[i + 2]);
        put_entry(buf, at + j * ENTRY, time, sign, value);
    }
}
