// A frame TXXX corrected in place, and sealed anew (paper 01, "Correcting a field").
ghost use Rattle.std.specs.Prelude.{◌≡◌, cond, ◌-◌, ◌*◌};
ghost use Rattle.format.specs.Correcting.{StandsAt};
ghost use Rattle.format.specs.Message.{between};
ghost use Rattle.format.specs.Promises.{Corrects};
ghost use Rattle.format.specs.Refusals.{told_of};
ghost use Rattle.walk.specs.Walk.{at_of, width_of};
ghost use Rattle.txxx.specs.Changed.{spot_by};
ghost use Rattle.txxx.specs.Txxx.{txxxs};

use crate::reading::{Txxx, fields, read};
use change::correcting::{Rereads, in_place};
use format::Refusal;
use walk::walk::Spot;

impl Txxx {
    // The fields that may be corrected, by their position among the frame's.
    pub const ADDRESS: usize = 3;

    pub const CLASS: usize = 4;

    pub const SENDER: usize = 5;

    pub const HOUR: usize = 6;

    pub const MINUTE: usize = 7;

    pub const MARK: usize = 11;
}

// Makes field number `field` of the frame be `value`, and its seal anew, or leaves every byte.
pub fn correct(buf: &mut [u8], field: usize, value: u64) -> Result<(), Refusal>
    ensures { Corrects txxxs buf.old field value (told_of result) buf.new }
{
    read(buf)?;
    let spot = stands(mark(buf.len()), field);
    in_place(buf, true, spot, value, &Fields)
}

// The fields, read anew behind the change.
struct Fields;

impl Rereads for Fields {
    ghost use Rattle.std.specs.Prelude.{[]};
    ghost use Rattle.bits.specs.Bits.{bits_of};
    ghost use Rattle.format.specs.Fmt.{read as Fmt·read};
    ghost use Rattle.format.specs.Message.{told};
    ghost use Rattle.txxx.specs.Txxx.{txxx};

    ghost tells = { λ it s. told (Fmt·read txxx [] 0 (bits_of s)) };

    fn reread(&self, s: &[u8]) -> Result<(), Refusal> {
        fields(s)?;
        Ok(())
    }
}

// Where each field that may be corrected stands in a frame whose mark stands at bit `mark`, and its width. Bit length, content and fill may not be.
fn stands(mark: usize, field: usize) -> Option<Spot>
    ensures { StandsAt (spot_by mark field) (at_of result) (width_of result) }
{
    match field {
        Txxx::ADDRESS => Some(Spot { at: 56, width: 24 }),
        Txxx::CLASS => Some(Spot { at: 80, width: 8 }),
        Txxx::SENDER => Some(Spot { at: 88, width: 24 }),
        Txxx::HOUR => Some(Spot { at: 112, width: 8 }),
        Txxx::MINUTE => Some(Spot { at: 120, width: 8 }),
        Txxx::MARK => Some(Spot { at: mark, width: 8 }),
        _ => None,
    }
}

// Where the mark stands in a frame of `len` bytes.
fn mark(len: usize) -> usize
    ensures { result ≡ cond (between 20 230 len) ((len - 2) * 8) 0 }
{
    if len < Txxx::LEAST || len > Txxx::GREATEST {
        return 0;
    }
    (len - Txxx::TAIL) * 8
}
