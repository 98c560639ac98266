// A report corrected in place (paper 01, "Correcting a field").
ghost use Rattle.distress.specs.Changed.{spot_of};
ghost use Rattle.distress.specs.Report.{reports};
ghost use Rattle.format.specs.Correcting.{StandsAt};
ghost use Rattle.format.specs.Promises.{Corrects};
ghost use Rattle.format.specs.Refusals.{told_of};
ghost use Rattle.walk.specs.Walk.{at_of, width_of};

use crate::reading::{Report, fields, read};
use change::correcting::{Rereads, in_place};
use format::Refusal;
use walk::walk::Spot;

impl Report {
    // The numbers that name the fields to be corrected: their positions among the paper's fields. The code before them and the fill
    // behind may not be.
    pub const MMSI: usize = 1;

    pub const LONGITUDE: usize = 2;

    pub const LATITUDE: usize = 3;

    pub const DAY: usize = 4;

    pub const HOUR: usize = 5;

    pub const MINUTE: usize = 6;

    pub const SPEED: usize = 7;

    pub const COURSE: usize = 8;

    pub const KIND: usize = 9;
}

// Makes field number `field` of the message be `value`, or leaves every byte.
pub fn correct(buf: &mut [u8], field: usize, value: u64) -> Result<(), Refusal>
    ensures { Corrects reports buf.old field value (told_of result) buf.new }
{
    read(buf)?;
    let spot = stands(field);
    in_place(buf, false, spot, value, &Fields)
}

// The fields, read anew behind the change.
struct Fields;

impl Rereads for Fields {
    ghost use Rattle.distress.specs.Report.{report};
    ghost use Rattle.format.specs.Message.{fields_of, told};

    ghost tells = { λ it s. told (fields_of report 17 17 s) };

    fn reread(&self, s: &[u8]) -> Result<(), Refusal> {
        fields(s)?;
        Ok(())
    }
}

// Where each field that may be corrected stands in every report, and its width.
fn stands(field: usize) -> Option<Spot>
    ensures { StandsAt (spot_of field) (at_of result) (width_of result) }
{
    match field {
        Report::MMSI => Some(Spot { at: 16, width: 32 }),
        Report::LONGITUDE => Some(Spot { at: 48, width: 25 }),
        Report::LATITUDE => Some(Spot { at: 73, width: 24 }),
        Report::DAY => Some(Spot { at: 97, width: 5 }),
        Report::HOUR => Some(Spot { at: 102, width: 5 }),
        Report::MINUTE => Some(Spot { at: 107, width: 6 }),
        Report::SPEED => Some(Spot { at: 113, width: 7 }),
        Report::COURSE => Some(Spot { at: 120, width: 9 }),
        Report::KIND => Some(Spot { at: 129, width: 4 }),
        _ => None,
    }
}
