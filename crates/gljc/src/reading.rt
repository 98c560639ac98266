// The frame GLJC (paper 01, "Serial frames"): one byte, minutes.
ghost use Rattle.std.specs.Prelude.{◌≡◌};
ghost use Rattle.format.specs.Fmt.{also};
ghost use Rattle.format.specs.Promises.{out_of, plain};
ghost use Rattle.format.specs.Message.{fields_of};
ghost use Rattle.gljc.specs.Gljc.{gljc, record_of};
ghost use Rattle.gljc.specs.Promises.{Reads};

use format::{Reason, Refusal};

#[derive(Clone, Copy)]
pub struct Gljc {
    pub address: u32,
    pub minutes: u8,
}

impl Gljc {
    pub const BITS: usize = 96;

    pub const LEAST: usize = Gljc::BITS / 8;

    pub const GREATEST: usize = Gljc::BITS / 8;
}

// `GLJC`.
pub const LETTERS: u64 = 0x474C_4A43;

pub const LENGTH: u64 = Gljc::LEAST as u64;

// The bytes that the seal is made of.
const SEALED: usize = Gljc::LEAST - 1;

pub fn read(s: &[u8]) -> Result<Gljc, Refusal>
    ensures { Reads s.now result }
{
    frame::first(s, LETTERS, Gljc::LEAST, Gljc::GREATEST)?;
    fields(change::sealing::inner(s))
}

// The fields in bit order. Another size is refused at once: no field has then to be tested for it.
pub fn fields(s: &[u8]) -> Result<Gljc, Refusal>
    ensures { out_of result ≡ plain (also record_of (fields_of gljc 11 11 s.now)) }
{
    if s.len() != SEALED {
        return Err(Reason::Size.into());
    }
    let w = frame::head(s, LETTERS, LENGTH, LENGTH);
    let address = w.v as u32;
    let w = w.num(s, 8, 0, 255);
    let minutes = w.v as u8;
    let w = w.end(s);
    w.passed()?;
    Ok(Gljc { address, minutes })
}
