// Writing a notice's areas from a row of numbers (paper 01, "Notice and packet"): judged in bit order, then put.
ghost use Rattle.std.specs.Prelude.{◌≡◌, ◌+◌, ◌*◌, ◌≤◌};
ghost use Rattle.notice_fields.specs.Making.{fresh, points_judged, area_judged, areas_judged, points_put, area_put, areas_put};
ghost use Rattle.notice_fields.specs.Row.{long_most};
ghost use Rattle.notice_fields.specs.Standing.{front, area_most};
ghost use Rattle.walk.specs.Walk.{seen, stepped};

use crate::areas::{CIRCLE, FRONT, SEA};
use crate::parts::{LATITUDE, LONGITUDE, POINT};
use walk::making::{Laid, Stepped, entry};
use walk::walk::Walk;

// What the four bits of a count can tell: 0 to 15 points.
const COUNTS: u64 = 16;

// ---- judging

// A walk at the first area: nothing is refused, and no field is sought.
fn fresh() -> Walk
    ensures { seen result ≡ fresh }
{
    Walk {
        at: FRONT as usize,
        verdict: Ok(()),
        v: 0,
        sought: None,
        spot: None,
    }
}

// The numbers of a notice's first `count` areas, where nothing was refused in front of them; a refused count of points is not walked.
pub fn judge(row: &[u32], count: u8) -> Stepped
    ensures { stepped result ≡ areas_judged row.now count 0 fresh }
{
    let mut w = fresh();
    let mut k: usize = 0;
    for _ in 0..count {
        let area = judge_area(w, row, k);
        w = area.walk;
        k = area.next;
        if w.verdict.is_err() {
            break;
        }
    }
    Stepped { walk: w, next: k }
}

// The area whose numbers begin with k.
fn judge_area(from: Walk, row: &[u32], k: usize) -> Stepped
    requires { k ≤ 255 * long_most }
    ensures { stepped result ≡ area_judged row.now k (seen from) }
{
    let kind = entry(row, k, 0);
    let w = from.value(3, kind, 0, 4);
    if kind == SEA {
        let walk = w.value(8, entry(row, k + 1, 0), 0, 255);
        return Stepped { walk, next: k + 2 };
    }
    if kind == CIRCLE {
        let p = judge_points(w, row, k + 1, 1);
        let q = p.value(10, entry(row, k + 3, 0), 0, 1_023);
        let walk = q.value(2, entry(row, k + 4, 0), 0, 3);
        return Stepped { walk, next: k + 5 };
    }
    let n = entry(row, k + 1, 0);
    let c = w.value(4, n, crate::areas::least(kind), 15);
    let points = k + 2;
    if c.verdict.is_err() {
        return Stepped {
            walk: c,
            next: points,
        };
    }
    let walk = judge_points(c, row, points, n as usize);
    Stepped {
        walk,
        next: points + n as usize * 2,
    }
}

// Latitude and longitude of n points.
fn judge_points(from: Walk, row: &[u32], k: usize, n: usize) -> Walk
    requires { (n ≤ 15) × (k ≤ 256 * long_most) }
    ensures { seen result ≡ points_judged row.now n k (seen from) }
{
    let mut w = from;
    for j in 0..n {
        let latitude = crate::parts::judged_latitude(w, entry(row, k + j * 2, 0));
        w = crate::parts::judged_longitude(latitude, entry(row, k + j * 2 + 1, 0));
    }
    w
}

// ---- putting what was judged

// The numbers of a notice's first `count` areas: the bit behind them. Of a row that was not judged, a count of points is taken
// by its four bits, so that it ends soon for every row.
pub fn put(buf: &mut [u8], row: &[u32], count: u8) -> usize
    ensures { (result ≡ (areas_put row.now count 0 front buf.old).0.at) × (buf.new ≡ (areas_put row.now count 0 front buf.old).1) }
{
    let mut at = FRONT as usize;
    let mut k: usize = 0;
    for _ in 0..count {
        let area = put_area(buf, at, row, k);
        at = area.at;
        k = area.next;
    }
    at
}

// The area whose numbers begin with k.
fn put_area(buf: &mut [u8], at: usize, row: &[u32], k: usize) -> Laid
    requires { (k ≤ 255 * long_most) × (at ≤ front + 255 * area_most) }
    ensures { (result, buf.new) ≡ area_put row.now k at buf.old }
{
    let kind = entry(row, k, 0);
    bits::put(buf, at, 3, kind);
    if kind == SEA {
        bits::put(buf, at + 3, 8, entry(row, k + 1, 0));
        return Laid {
            at: at + 11,
            next: k + 2,
        };
    }
    if kind == CIRCLE {
        put_points(buf, at + 3, row, k + 1, 1);
        bits::put(buf, at + 3 + POINT, 10, entry(row, k + 3, 0));
        bits::put(buf, at + 3 + POINT + 10, 2, entry(row, k + 4, 0));
        return Laid {
            at: at + 3 + POINT + 12,
            next: k + 5,
        };
    }
    let counted = entry(row, k + 1, 0);
    bits::put(buf, at + 3, 4, counted);
    let n = (counted % COUNTS) as usize;
    let points = k + 2;
    put_points(buf, at + 7, row, points, n);
    Laid {
        at: at + 7 + n * POINT,
        next: points + n * 2,
    }
}

// Latitude and longitude of n points.
fn put_points(buf: &mut [u8], at: usize, row: &[u32], k: usize, n: usize)
    requires { (n ≤ 15) × (k ≤ 256 * long_most) × (at ≤ front + 256 * area_most) }
    ensures { buf.new ≡ points_put row.now n k at buf.old }
{
    for j in 0..n {
        bits::put(buf, at + j * POINT, LATITUDE, entry(row, k + j * 2, 0));
        bits::put(
            buf,
            at + j * POINT + LATITUDE,
            LONGITUDE,
            entry(row, k + j * 2 + 1, 0),
        );
    }
}
