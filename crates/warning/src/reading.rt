// Message 8 with application 412/03, a warning (paper 01, "AIS"; 003, tables 5 and 56 to 62).
ghost use Rattle.std.specs.Prelude.{◌≡◌};
ghost use Rattle.format.specs.Fmt.{also};
ghost use Rattle.format.specs.Promises.{out_of, plain};
ghost use Rattle.format.specs.Refusals.{code_of};
ghost use Rattle.format.specs.Message.{fields_of};
ghost use Rattle.warning.specs.Promises.{Reads};
ghost use Rattle.warning.specs.Warning.{warning, warnings, record_of};

pub use ais_common::head::AUTHORITY;
use format::{Reason, Refusal};

#[derive(Clone, Copy)]
pub struct Warning {
    pub repeat: u8,
    pub source: u32,
    // Thousandths of a minute, from 60° E and from 50° S.
    pub longitude: u32,
    pub latitude: u32,
    pub body: crate::bodies::Body,
    pub time: ais_common::time::Time,
    pub hours: u8,
}

impl Warning {
    pub const BITS: usize = 184;

    pub const LEAST: usize = Warning::BITS / 8;

    pub const GREATEST: usize = Warning::BITS / 8;
}

pub const MESSAGE: u64 = 8;

pub const APPLICATION: u64 = 3;

// Both as they stand, side by side.
const APPLIED: u64 = AUTHORITY * 64 + APPLICATION;

pub fn read(s: &[u8]) -> Result<Warning, Refusal>
    ensures { Reads s.now result }
{
    lead(s)?;
    fields(s)
}

// The first tests: smallest size; message, application and warning type; size.
pub fn lead(s: &[u8]) -> Result<(), Reason>
    ensures { code_of result ≡ warnings.lead s.now }
{
    let head = ais_common::head::Head {
        message: bits::get(s, 0, 6),
        application: bits::get(s, 40, 16),
        choice: bits::get(s, 56, 4),
    };
    let asked = ais_common::head::Asked {
        message: MESSAGE,
        application: APPLIED,
        choices: 5,
        bytes: Warning::LEAST,
    };
    ais_common::head::lead(s.len(), head, asked)
}

// The fields in bit order. Another size is refused at once: no field has then to be tested for it. What is
// refused up to the warning type is answered there.
pub fn fields(s: &[u8]) -> Result<Warning, Refusal>
    ensures { out_of result ≡ plain (also record_of (fields_of warning 23 23 s.now)) }
{
    if s.len() != Warning::LEAST {
        return Err(Reason::Size.into());
    }
    let w = walk::walk::Walk::begin(0).code(s, 6, MESSAGE);
    let w = w.num(s, 2, 0, 3);
    let repeat = w.v as u8;
    let w = w.num(s, 30, 0, 999_999_999);
    let source = w.v as u32;
    let w = w.fill(s, 2).code(s, 10, AUTHORITY).code(s, 6, APPLICATION);
    let w = w.number(s, 4, false, 1, 5, Reason::Kind);
    let kind = w.v;
    w.passed()?;
    let w = w.num(s, 23, 0, 7_200_000);
    let longitude = w.v as u32;
    let w = w.num(s, 23, 0, 7_200_000);
    let latitude = w.v as u32;
    let (w, body) = crate::bodies::read(s, kind, w);
    let w = ais_common::time::read(s, w);
    let time = ais_common::time::Time::of(w.v);
    let w = w.num(s, 6, 0, 48);
    let hours = w.v as u8;
    let w = w.fill(s, 2).end(s);
    w.passed()?;
    Ok(Warning {
        repeat,
        source,
        longitude,
        latitude,
        body,
        time,
        hours,
    })
}
