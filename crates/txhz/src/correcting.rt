// A frame TXHZ corrected in place, and sealed anew (paper 01, "Correcting a field").
ghost use Rattle.std.specs.Prelude.{cond, ltb, get_or};
ghost use Rattle.format.specs.Correcting.{StandsAt};
ghost use Rattle.format.specs.Fmt.{none};
ghost use Rattle.format.specs.Promises.{Corrects};
ghost use Rattle.format.specs.Refusals.{told_of};
ghost use Rattle.walk.specs.Walk.{at_of, width_of};
ghost use Rattle.txhz.specs.Changed.{spots};
ghost use Rattle.txhz.specs.Txhz.{txhzs};

use crate::reading::{Txhz, fields, read};
use change::correcting::{Rereads, in_place};
use format::Refusal;
use walk::walk::Spot;

impl Txhz {
    // The fields that may be corrected, by their position among the frame's.
    pub const ADDRESS: usize = 3;

    pub const RECEIVER: usize = 4;

    pub const COUNT: usize = 5;

    // The first of the first receipt's four; the next receipt's follow, and may be corrected as far as the count goes.
    pub const FIRST_RECEIPT: usize = 6;
}

// Makes field number `field` of the frame be `value`, and its seal anew, or leaves every byte.
pub fn correct(buf: &mut [u8], field: usize, value: u64) -> Result<(), Refusal>
    ensures { Corrects txhzs buf.old field value (told_of result) buf.new }
{
    let was = read(buf)?;
    let spot = stands(was.count, field);
    in_place(buf, true, spot, value, &Fields)
}

// The fields, read anew behind the change.
struct Fields;

impl Rereads for Fields {
    ghost use Rattle.format.specs.Message.{fields_of, told};
    ghost use Rattle.txhz.specs.Txhz.{txhz};

    ghost tells = { λ it s. told (fields_of txhz 34 34 s) };

    fn reread(&self, s: &[u8]) -> Result<(), Refusal> {
        fields(s)?;
        Ok(())
    }
}

// Where each field that may be corrected stands in a frame that counts `count` receipts, and its width.
fn stands(count: u8, field: usize) -> Option<Spot>
    ensures { StandsAt (get_or (spots count) field none) (at_of result) (width_of result) }
{
    match field {
        Txhz::ADDRESS => Some(Spot { at: 56, width: 24 }),
        Txhz::RECEIVER => Some(Spot { at: 80, width: 24 }),
        Txhz::COUNT => Some(Spot { at: 104, width: 8 }),
        _ => receipt(count, field),
    }
}

// The same of a receipt's field. A receipt has four, of a byte each, and past the count they are fill.
fn receipt(count: u8, field: usize) -> Option<Spot>
    ensures { StandsAt (cond (ltb field 6) none (get_or (spots count) field none)) (at_of result) (width_of result) }
{
    if field < Txhz::FIRST_RECEIPT {
        return None;
    }
    if field < Txhz::FIRST_RECEIPT + 20 {
        if (field - Txhz::FIRST_RECEIPT) / 4 < count as usize {
            return Some(Spot {
                at: 64 + field * 8,
                width: 8,
            });
        }
    }
    None
}
