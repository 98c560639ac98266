// An area as numbers in a lent row. Each call hands on what the family's own call promises.
ghost use Rattle.format.specs.Refusals.{told_of};
ghost use Rattle.std.specs.Prelude.{◌≡◌};
ghost use Rattle.c_rows.specs.Row.{Fills};
ghost use Rattle.c_rows.specs.Area.{four_of, row_of, numbers_of};

use area::{Area, Shape};
use format::Refusal;

// A shape's numbers in the paper's order: a circle has three, and 0 behind them.
#[derive(Clone, Copy)]
struct Four {
    longitude: i32,
    latitude: i32,
    third: i32,
    fourth: i32,
}

// Reads the area into a row of 19: repeat, source, sequence, destination, resent, kind, shape, four numbers of its shape, month, day, hour, minute, second month, second day, second hour, advice.
pub fn read(s: &[u8], row: &mut [i64]) -> Result<(), Refusal>
    ensures { Fills (numbers_of s.now) row.old (told_of result) row.new }
{
    let r = area::read(s)?;
    crate::fill(row, &numbers(r))
}

fn numbers(r: Area) -> [i64; 19]
    ensures { result ≡ row_of r }
{
    let shape = r.shape;
    let kind = shape.kind();
    let n = of_shape(shape);
    let longitude = n.longitude;
    let latitude = n.latitude;
    let third = n.third;
    let fourth = n.fourth;
    let time = r.time;
    let second = r.second_time;
    [
        r.repeat as i64,
        r.source as i64,
        r.sequence as i64,
        r.destination as i64,
        r.resent as i64,
        r.kind as i64,
        kind as i64,
        longitude as i64,
        latitude as i64,
        third as i64,
        fourth as i64,
        time.month as i64,
        time.day as i64,
        time.hour as i64,
        time.minute as i64,
        second.month as i64,
        second.day as i64,
        second.hour as i64,
        r.advice as i64,
    ]
}

fn of_shape(shape: Shape) -> Four
    ensures { result ≡ four_of shape }
{
    match shape {
        Shape::Circle(b) => {
            let longitude = b.longitude;
            let latitude = b.latitude;
            Four {
                longitude,
                latitude,
                third: b.radius as i32,
                fourth: 0,
            }
        },
        Shape::Rectangle(b) => {
            let longitude = b.longitude;
            let latitude = b.latitude;
            let third = b.second_longitude;
            let fourth = b.second_latitude;
            Four {
                longitude,
                latitude,
                third,
                fourth,
            }
        },
    }
}
