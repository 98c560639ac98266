// The records of a tide telegram (paper 02, C-11): walked in bit order, the first fault ends the walk.
ghost use Rattle.std.specs.Prelude.{◌≡◌};
ghost use Rattle.walk.specs.Walk.{seen};
ghost use Rattle.tide.specs.Tide.{least_of};
ghost use Rattle.tide.specs.Steps.{placed_read, opened_at, entry_read, records_walked};

use walk::walk::Walk;

// The position type of a port; the other is a point's.
pub const PORT: u64 = 0;

// The most records, and the most entries of one: nine bits tell no more.
pub const MOST: u64 = 511;

// The greatest value, in centimetres.
pub const HIGHEST: u64 = 1_023;

// Over `count` records: a refused head of a record, or a refused entry, leaves both loops.
pub(crate) fn walk(s: &[u8], from: Walk, count: u16) -> Walk
    ensures { seen result ≡ records_walked s.now count (seen from) }
{
    let mut w = from;
    'records: for _ in 0..count {
        w = open_record(s, w);
        if w.verdict.is_err() {
            break 'records;
        }
        let n = w.v;
        // A run passes several entries at once.
        let mut j: u64 = 0;
        'entries: while j < n {
            let run = crate::entries::pass(s, w, n - j);
            w = run.walk;
            if w.verdict.is_err() {
                break 'records;
            }
            j += run.count;
        }
    }
    w
}

// A record up to its entries: position, forecast mark, and how many entries. Where there is no position type, it is left there.
fn open_record(s: &[u8], w: Walk) -> Walk
    ensures { seen result ≡ opened_at s.now (seen w) }
{
    let kind = w.decide(s, 1, 0, 1);
    if kind.verdict.is_err() {
        return kind;
    }
    let mark = position(s, kind).num(s, 1, 0, 1);
    mark.decide(s, 9, 1, MOST)
}

// Behind the position type: a port's code, or a point.
fn position(s: &[u8], kind: Walk) -> Walk
    ensures { seen result ≡ placed_read s.now kind.v (seen kind) }
{
    if kind.v == PORT {
        return kind.num(s, 6, 0, 63);
    }
    let latitude = notice_fields::parts::latitude(s, kind);
    notice_fields::parts::longitude(s, latitude)
}

// Time, sign and value.
pub(crate) fn entry(s: &[u8], w: Walk) -> Walk
    ensures { seen result ≡ entry_read s.now (seen w) }
{
    let sign = notice_fields::parts::time(s, w).num(s, 1, 0, 1);
    sign.num(s, 10, least(sign.v), HIGHEST)
}

// The least value behind a sign: 0 centimetres have one form.
pub(crate) fn least(sign: u64) -> u64
    ensures { result ≡ least_of sign }
{
    if sign == 0 { 1 } else { 0 }
}
