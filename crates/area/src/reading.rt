// Message 6 with application 412/11, an area marked off (paper 01, "AIS"; 003, tables 4 and 38 to 40).
ghost use Rattle.std.specs.Prelude.{◌≡◌};
ghost use Rattle.format.specs.Fmt.{also};
ghost use Rattle.format.specs.Promises.{out_of, plain};
ghost use Rattle.format.specs.Refusals.{code_of};
ghost use Rattle.format.specs.Message.{fields_of};
ghost use Rattle.area.specs.Area.{area, areas, record_of};
ghost use Rattle.area.specs.Promises.{Reads};
ghost use Rattle.area.specs.Steps.{OpeningRead};

pub use ais_common::head::AUTHORITY;
use format::{Reason, Refusal};

pub mod shapes;

#[derive(Clone, Copy)]
pub struct Area {
    pub repeat: u8,
    pub source: u32,
    pub sequence: u8,
    pub destination: u32,
    pub resent: u8,
    // 1 to 14.
    pub kind: u8,
    pub shape: shapes::Shape,
    pub time: ais_common::time::Time,
    pub second_time: ais_common::time::ShortTime,
    // 1 to 6.
    pub advice: u8,
}

impl Area {
    pub const BITS: usize = 248;

    pub const LEAST: usize = Area::BITS / 8;

    pub const GREATEST: usize = Area::BITS / 8;
}

pub const MESSAGE: u64 = 6;

pub const APPLICATION: u64 = 11;

// Both as they stand, side by side.
const APPLIED: u64 = AUTHORITY * 64 + APPLICATION;

pub fn read(s: &[u8]) -> Result<Area, Refusal>
    ensures { Reads s.now result }
{
    lead(s)?;
    fields(s)
}

// The first tests: smallest size; message, application and shape; size.
pub fn lead(s: &[u8]) -> Result<(), Reason>
    ensures { code_of result ≡ areas.lead s.now }
{
    let head = ais_common::head::Head {
        message: bits::get(s, 0, 6),
        application: bits::get(s, 72, 16),
        choice: bits::get(s, 92, 2),
    };
    let asked = ais_common::head::Asked {
        message: MESSAGE,
        application: APPLIED,
        choices: 2,
        bytes: Area::LEAST,
    };
    ais_common::head::lead(s.len(), head, asked)
}

// The fields before the shape, and the walk behind them, whose last value is the shape's number.
#[derive(Clone, Copy)]
pub struct Opened {
    pub repeat: u8,
    pub source: u32,
    pub sequence: u8,
    pub destination: u32,
    pub resent: u8,
    pub kind: u8,
    pub walk: walk::walk::Walk,
}

// They are read in bit order. What is refused up to the source, before the kind or at the shape's number is answered there.
fn opening(s: &[u8]) -> Result<Opened, Refusal>
    ensures { OpeningRead s.now result }
{
    let w = walk::walk::Walk::begin(0).code(s, 6, MESSAGE);
    let w = w.num(s, 2, 0, 3);
    let repeat = w.v as u8;
    let w = w.num(s, 30, 0, 999_999_999);
    w.passed()?;
    let source = w.v as u32;
    let w = w.num(s, 2, 0, 3);
    let sequence = w.v as u8;
    let w = w.num(s, 30, 0, 999_999_999);
    let destination = w.v as u32;
    let w = w.num(s, 1, 0, 1);
    let resent = w.v as u8;
    let w = w.fill(s, 1).code(s, 10, AUTHORITY).code(s, 6, APPLICATION);
    w.passed()?;
    let w = w.num(s, 4, 1, 14);
    let kind = w.v as u8;
    let walk = w.number(s, 2, false, 1, 2, Reason::Kind);
    walk.passed()?;
    Ok(Opened {
        repeat,
        source,
        sequence,
        destination,
        resent,
        kind,
        walk,
    })
}

// The fields in bit order. Another size is refused at once: no field has then to be tested for it. What is refused before the shape is
// answered there.
pub fn fields(s: &[u8]) -> Result<Area, Refusal>
    ensures { out_of result ≡ plain (also record_of (fields_of area 31 31 s.now)) }
{
    if s.len() != Area::LEAST {
        return Err(Reason::Size.into());
    }
    let begun = opening(s)?;
    let (w, shape) = shapes::read(s, begun.walk.v, begun.walk);
    let w = ais_common::time::read(s, w);
    let time = ais_common::time::Time::of(w.v);
    let w = ais_common::time::read_short(s, w);
    let second_time = ais_common::time::ShortTime::of(w.v);
    let w = w.num(s, 4, 1, 6);
    let advice = w.v as u8;
    let w = w.fill(s, 6).end(s);
    w.passed()?;
    Ok(Area {
        repeat: begun.repeat,
        source: begun.source,
        sequence: begun.sequence,
        destination: begun.destination,
        resent: begun.resent,
        kind: begun.kind,
        shape,
        time,
        second_time,
        advice,
    })
}
