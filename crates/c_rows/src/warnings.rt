// A warning as numbers in a lent row. Each call hands on what the family's own call promises.
ghost use Rattle.format.specs.Refusals.{told_of};
ghost use Rattle.std.specs.Prelude.{◌≡◌};
ghost use Rattle.c_rows.specs.Row.{Fills, entries};
ghost use Rattle.c_rows.specs.Warning.{four_of, seven_of, row_of, numbers_of};

use format::Refusal;
use warning::Warning;
use warning::bodies::Body;

// A body's numbers in the paper's order, and 0 where the body has no more. By name and not in an array: each goes to an entry of the
// row, which C names too.
#[derive(Clone, Copy)]
struct Seven {
    first: u16,
    second: u16,
    third: u16,
    fourth: u16,
    fifth: u16,
    sixth: u16,
    seventh: u16,
}

// Reads the warning into a row of 17: repeat, source, warning type, longitude, latitude, seven numbers of its body, month, day, hour, minute, hours.
pub fn read(s: &[u8], row: &mut [i64]) -> Result<(), Refusal>
    ensures { Fills (numbers_of s.now) row.old (told_of result) row.new }
{
    let r = warning::read(s)?;
    crate::fill(row, &numbers(r))
}

fn numbers(r: Warning) -> [i64; 17]
    ensures { result ≡ entries (row_of r) }
{
    let body = r.body;
    let kind = body.kind();
    let n = of_body(body);
    let time = r.time;
    [
        r.repeat as i64,
        r.source as i64,
        kind as i64,
        r.longitude as i64,
        r.latitude as i64,
        n.first as i64,
        n.second as i64,
        n.third as i64,
        n.fourth as i64,
        n.fifth as i64,
        n.sixth as i64,
        n.seventh as i64,
        time.month as i64,
        time.day as i64,
        time.hour as i64,
        time.minute as i64,
        r.hours as i64,
    ]
}

fn of_body(body: Body) -> Seven
    ensures { result ≡ seven_of body }
{
    match body {
        Body::Cyclone(b) => Seven {
            first: b.kind as u16,
            second: b.gale_radius,
            third: b.storm_radius,
            fourth: b.speed as u16,
            fifth: b.direction,
            sixth: b.force as u16,
            seventh: b.pressure,
        },
        Body::Gale(b) => four(
            b.radius as u16,
            b.least as u16,
            b.greatest as u16,
            b.direction as u16,
        ),
        Body::Waves(b) => four(b.radius as u16, b.height as u16, b.period, 0),
        Body::Fog(b) => four(b.radius, b.visibility as u16, 0, 0),
        Body::Surge(b) => four(b.radius, b.rise, b.tide, b.period),
    }
}

fn four(first: u16, second: u16, third: u16, fourth: u16) -> Seven
    ensures { result ≡ four_of first second third fourth }
{
    Seven {
        first,
        second,
        third,
        fourth,
        fifth: 0,
        sixth: 0,
        seventh: 0,
    }
}
