// A frame TXSQ corrected in place, and sealed anew (paper 01, "Correcting a field").
ghost use Rattle.format.specs.Correcting.{StandsAt};
ghost use Rattle.format.specs.Promises.{Corrects};
ghost use Rattle.format.specs.Refusals.{told_of};
ghost use Rattle.walk.specs.Walk.{at_of, width_of};
ghost use Rattle.txsq.specs.Changed.{spot_of};
ghost use Rattle.txsq.specs.Txsq.{txsqs};

use crate::reading::{Txsq, fields, read};
use change::correcting::{Rereads, in_place};
use format::Refusal;
use walk::walk::Spot;

impl Txsq {
    // The fields that may be corrected, by their position among the frame's.
    pub const ADDRESS: usize = 3;

    pub const CATEGORY: usize = 5;

    pub const MODE: usize = 6;

    pub const PASSWORD: usize = 7;

    pub const RECEIVER: usize = 8;

    pub const ANSWER: usize = 10;
}

// Makes field number `field` of the frame be `value`, and its seal anew, or leaves every byte.
pub fn correct(buf: &mut [u8], field: usize, value: u64) -> Result<(), Refusal>
    ensures { Corrects txsqs buf.old field value (told_of result) buf.new }
{
    read(buf)?;
    let spot = stands(field);
    in_place(buf, true, spot, value, &Fields)
}

// The fields, read anew behind the change.
struct Fields;

impl Rereads for Fields {
    ghost use Rattle.std.specs.Prelude.{[]};
    ghost use Rattle.bits.specs.Bits.{bits_of};
    ghost use Rattle.format.specs.Fmt.{read as Fmt·read};
    ghost use Rattle.format.specs.Message.{told};
    ghost use Rattle.txsq.specs.Txsq.{txsq};

    ghost tells = { λ it s. told (Fmt·read txsq [] 0 (bits_of s)) };

    fn reread(&self, s: &[u8]) -> Result<(), Refusal> {
        fields(s)?;
        Ok(())
    }
}

// Where each field that may be corrected stands in every frame, and its width. Bit length, content and fill may not be.
fn stands(field: usize) -> Option<Spot>
    ensures { StandsAt (spot_of field) (at_of result) (width_of result) }
{
    match field {
        Txsq::ADDRESS => Some(Spot { at: 56, width: 24 }),
        Txsq::CATEGORY => Some(Spot { at: 84, width: 2 }),
        Txsq::MODE => Some(Spot { at: 86, width: 1 }),
        Txsq::PASSWORD => Some(Spot { at: 87, width: 1 }),
        Txsq::RECEIVER => Some(Spot { at: 88, width: 24 }),
        Txsq::ANSWER => Some(Spot { at: 128, width: 8 }),
        _ => None,
    }
}
