// Correcting a field of a tide telegram (paper 02, C-11), in its own bytes.
ghost use Rattle.format.specs.Promises.{Corrects};
ghost use Rattle.format.specs.Refusals.{told_of};
ghost use Rattle.tide.specs.Tide.{tides};

use crate::reading::{fields, walked};
use change::correcting::{Rereads, in_place};
use format::Refusal;

// Makes field number `field` of the telegram be `value`, or leaves every byte. From 4 on (`FIRST_ENTRY`) the fields are the numbers of
// its records as they stand in the row; those that may be corrected are ports, latitudes, longitudes, forecast marks, times, signs and values.
pub fn correct(buf: &mut [u8], field: usize, value: u64) -> Result<(), Refusal>
    ensures { Corrects tides buf.old field value (told_of result) buf.new }
{
    let was = fields(buf, field)?;
    // The walk finds no field that may not be corrected.
    let spot = was.walk.spot;
    in_place(buf, false, spot, value, &Fields)
}

// The fields, read anew behind the change.
struct Fields;

impl Rereads for Fields {
    ghost use Rattle.format.specs.Refusals.{shown};
    ghost use Rattle.tide.specs.Steps.{behind, head_read};

    ghost tells = { λ it s. let w = (behind s (head_read 0 s)).walk in shown w.code w.offset };

    fn reread(&self, s: &[u8]) -> Result<(), Refusal> {
        walked(s, 0).walk.passed()
    }
}
