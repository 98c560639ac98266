// An area corrected in place (paper 01, "Correcting a field").
ghost use Rattle.bits.specs.Bits.{field_at};
ghost use Rattle.format.specs.Correcting.{StandsAt};
ghost use Rattle.format.specs.Promises.{Corrects};
ghost use Rattle.format.specs.Refusals.{told_of};
ghost use Rattle.walk.specs.Walk.{at_of, width_of};
ghost use Rattle.area.specs.Area.{areas};
ghost use Rattle.area.specs.Changed.{spot_of, own_spot, field_of};
ghost use Rattle.area.specs.Shapes.{circle, rectangle, kind_of};

use crate::reading::{Area, fields, read};
use change::correcting::{Rereads, in_place};
use format::Refusal;
use walk::walk::Spot;

impl Area {
    // The numbers of the fields that may be corrected. Those of a shape are fields of areas of that shape alone.
    pub const REPEAT: usize = 1;

    pub const SOURCE: usize = 2;

    pub const SEQUENCE: usize = 3;

    pub const DESTINATION: usize = 4;

    pub const RESENT: usize = 5;

    pub const KIND: usize = 6;

    pub const LONGITUDE: usize = 7;

    pub const LATITUDE: usize = 8;

    pub const TIME: usize = 9;

    pub const SECOND_TIME: usize = 10;

    pub const ADVICE: usize = 11;

    pub const CIRCLE_RADIUS: usize = 12;

    pub const RECTANGLE_LONGITUDE: usize = 13;

    pub const RECTANGLE_LATITUDE: usize = 14;
}

// Makes field number `field` of the message be `value`, or leaves every byte.
pub fn correct(buf: &mut [u8], field: usize, value: u64) -> Result<(), Refusal>
    ensures { Corrects areas buf.old (field_of (field_at buf.old 92 2) field) value (told_of result) buf.new }
{
    read(buf)?;
    let spot = stands(bits::get(buf, 92, 2), field);
    in_place(buf, false, spot, value, &Fields)
}

// The fields, read anew behind the change.
struct Fields;

impl Rereads for Fields {
    ghost use Rattle.format.specs.Message.{fields_of, told};
    ghost use Rattle.area.specs.Area.{area};

    ghost tells = { λ it s. told (fields_of area 31 31 s) };

    fn reread(&self, s: &[u8]) -> Result<(), Refusal> {
        fields(s)?;
        Ok(())
    }
}

// Where each field that may be corrected stands in an area whose shape has the number `kind`, and its width.
fn stands(kind: u64, field: usize) -> Option<Spot>
    ensures { StandsAt (spot_of (kind_of kind) (field_of kind field)) (at_of result) (width_of result) }
{
    match field {
        Area::REPEAT => Some(Spot { at: 6, width: 2 }),
        Area::SOURCE => Some(Spot { at: 8, width: 30 }),
        Area::SEQUENCE => Some(Spot { at: 38, width: 2 }),
        Area::DESTINATION => Some(Spot { at: 40, width: 30 }),
        Area::RESENT => Some(Spot { at: 70, width: 1 }),
        Area::KIND => Some(Spot { at: 88, width: 4 }),
        Area::LONGITUDE => Some(Spot { at: 94, width: 28 }),
        Area::LATITUDE => Some(Spot { at: 122, width: 27 }),
        Area::TIME => Some(Spot { at: 204, width: 20 }),
        Area::SECOND_TIME => Some(Spot { at: 224, width: 14 }),
        Area::ADVICE => Some(Spot { at: 238, width: 4 }),
        _ => own(kind, field),
    }
}

// The same of a field of its shape.
fn own(kind: u64, field: usize) -> Option<Spot>
    ensures { StandsAt (own_spot (kind_of kind) field) (at_of result) (width_of result) }
{
    match kind {
        1 => circle(field),
        _ => rectangle(field),
    }
}

fn circle(field: usize) -> Option<Spot>
    ensures { StandsAt (own_spot circle field) (at_of result) (width_of result) }
{
    match field {
        Area::CIRCLE_RADIUS => Some(Spot { at: 149, width: 7 }),
        _ => None,
    }
}

fn rectangle(field: usize) -> Option<Spot>
    ensures { StandsAt (own_spot rectangle field) (at_of result) (width_of result) }
{
    match field {
        Area::RECTANGLE_LONGITUDE => Some(Spot { at: 149, width: 28 }),
        Area::RECTANGLE_LATITUDE => Some(Spot { at: 177, width: 27 }),
        _ => None,
    }
}
