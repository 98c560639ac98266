// A frame GLJC corrected in place, and sealed anew (paper 01, "Correcting a field").
ghost use Rattle.format.specs.Correcting.{StandsAt};
ghost use Rattle.format.specs.Promises.{Corrects};
ghost use Rattle.format.specs.Refusals.{told_of};
ghost use Rattle.walk.specs.Walk.{at_of, width_of};
ghost use Rattle.gljc.specs.Changed.{spot_of};
ghost use Rattle.gljc.specs.Gljc.{gljcs};

use crate::reading::{Gljc, fields, read};
use change::correcting::{Rereads, in_place};
use format::Refusal;
use walk::walk::Spot;

impl Gljc {
    // The fields that may be corrected, by their position among the frame's.
    pub const ADDRESS: usize = 3;

    pub const MINUTES: usize = 4;
}

// Makes field number `field` of the frame be `value`, and its seal anew, or leaves every byte.
pub fn correct(buf: &mut [u8], field: usize, value: u64) -> Result<(), Refusal>
    ensures { Corrects gljcs buf.old field value (told_of result) buf.new }
{
    read(buf)?;
    let spot = stands(field);
    in_place(buf, true, spot, value, &Fields)
}

// The fields, read anew behind the change.
struct Fields;

impl Rereads for Fields {
    ghost use Rattle.format.specs.Message.{fields_of, told};
    ghost use Rattle.gljc.specs.Gljc.{gljc};

    ghost tells = { λ it s. told (fields_of gljc 11 11 s) };

    fn reread(&self, s: &[u8]) -> Result<(), Refusal> {
        fields(s)?;
        Ok(())
    }
}

// Where each field that may be corrected stands in every frame, and its width.
fn stands(field: usize) -> Option<Spot>
    ensures { StandsAt (spot_of field) (at_of result) (width_of result) }
{
    match field {
        Gljc::ADDRESS => Some(Spot { at: 56, width: 24 }),
        Gljc::MINUTES => Some(Spot { at: 80, width: 8 }),
        _ => None,
    }
}
