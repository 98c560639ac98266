// The areas of a notice (paper 01, "Notice and packet"): walked in bit order, the first fault ends the walk.
ghost use Rattle.std.specs.Prelude.{◌≡◌};
ghost use Rattle.notice_fields.specs.Areas.{least_of, kind_of};
ghost use Rattle.notice_fields.specs.Steps.{opened, opened_as, closed_as, areas_walked};
ghost use Rattle.walk.specs.Walk.{seen};

use walk::walk::Walk;

// The kinds of area whose number decides what they hold; all others are counted points.
pub const SEA: u64 = 0;

pub const CIRCLE: u64 = 3;

// The bit where a notice's first area begins.
pub const FRONT: u32 = 63;

// The walk in front of an area's points, and how many they are.
#[derive(Clone, Copy)]
pub struct Opened {
    pub walk: Walk,
    pub points: u64,
}

// Over `count` areas: the first bad point leaves both loops.
pub fn walk(s: &[u8], from: Walk, count: u8) -> Walk
    ensures { seen result ≡ areas_walked s.now count (seen from) }
{
    let mut w = from;
    'areas: for _ in 0..count {
        let kind = w.decide(s, 3, 0, 4);
        let area = open_area(s, kind);
        w = area.walk;
        'points: for _ in 0..area.points {
            let latitude = crate::parts::latitude(s, w);
            w = crate::parts::longitude(s, latitude);
            if w.verdict.is_err() {
                break 'areas;
            }
        }
        w = close_area(s, w, kind.v);
    }
    w
}

// Behind an area's kind, up to its points: a sea area's code, a circle's one point, or how many points are counted.
fn open_area(s: &[u8], kind: Walk) -> Opened
    ensures { opened result ≡ opened_as (kind_of kind.v) s.now (seen kind) }
{
    let k = kind.v;
    if k == SEA {
        let walk = kind.num(s, 8, 0, 255);
        return Opened { walk, points: 0 };
    }
    if k == CIRCLE {
        return Opened {
            walk: kind,
            points: 1,
        };
    }
    let walk = kind.decide(s, 4, least(k), 15);
    let points = walk.v;
    Opened { walk, points }
}

// The least number of points: 1, of a line 2, of a polygon 3.
pub fn least(kind: u64) -> u64
    ensures { result ≡ least_of kind }
{
    match kind {
        1 => 1,
        2 => 2,
        _ => 3,
    }
}

// Behind an area's points: a circle's radius and unit.
fn close_area(s: &[u8], w: Walk, kind: u64) -> Walk
    ensures { seen result ≡ closed_as (kind_of kind) s.now (seen w) }
{
    if kind == CIRCLE {
        return w.num(s, 10, 0, 1_023).num(s, 2, 0, 3);
    }
    w
}
