// A warning corrected in place (paper 01, "Correcting a field").
ghost use Rattle.bits.specs.Bits.{field_at};
ghost use Rattle.format.specs.Correcting.{StandsAt};
ghost use Rattle.format.specs.Promises.{Corrects};
ghost use Rattle.format.specs.Refusals.{told_of};
ghost use Rattle.walk.specs.Walk.{at_of, width_of};
ghost use Rattle.warning.specs.Bodies.{cyclone, gale, waves, fog, surge, kind_of};
ghost use Rattle.warning.specs.Warning.{warnings};
ghost use Rattle.warning.specs.Changed.{spot_of, own_spot, field_of};

use crate::reading::{Warning, fields, read};
use change::correcting::{Rereads, in_place};
use format::Refusal;
use walk::walk::Spot;

impl Warning {
    // The numbers of the fields that may be corrected. Those of a body are fields of its type alone.
    pub const REPEAT: usize = 1;

    pub const SOURCE: usize = 2;

    pub const LONGITUDE: usize = 3;

    pub const LATITUDE: usize = 4;

    pub const TIME: usize = 5;

    pub const HOURS: usize = 6;

    pub const CYCLONE_KIND: usize = 7;

    pub const CYCLONE_GALE_RADIUS: usize = 8;

    pub const CYCLONE_STORM_RADIUS: usize = 9;

    pub const CYCLONE_SPEED: usize = 10;

    pub const CYCLONE_DIRECTION: usize = 11;

    pub const CYCLONE_FORCE: usize = 12;

    pub const CYCLONE_PRESSURE: usize = 13;

    pub const GALE_RADIUS: usize = 14;

    pub const GALE_LEAST: usize = 15;

    pub const GALE_GREATEST: usize = 16;

    pub const GALE_DIRECTION: usize = 17;

    pub const WAVES_RADIUS: usize = 18;

    pub const WAVES_HEIGHT: usize = 19;

    pub const WAVES_PERIOD: usize = 20;

    pub const FOG_RADIUS: usize = 21;

    pub const FOG_VISIBILITY: usize = 22;

    pub const SURGE_RADIUS: usize = 23;

    pub const SURGE_RISE: usize = 24;

    pub const SURGE_TIDE: usize = 25;

    pub const SURGE_PERIOD: usize = 26;
}

// Makes field number `field` of the message be `value`, or leaves every byte.
pub fn correct(buf: &mut [u8], field: usize, value: u64) -> Result<(), Refusal>
    ensures { Corrects warnings buf.old (field_of (field_at buf.old 56 4) field) value (told_of result) buf.new }
{
    read(buf)?;
    let spot = stands(bits::get(buf, 56, 4), field);
    in_place(buf, false, spot, value, &Fields)
}

// The fields, read anew behind the change.
struct Fields;

impl Rereads for Fields {
    ghost use Rattle.format.specs.Message.{fields_of, told};
    ghost use Rattle.warning.specs.Warning.{warning};

    ghost tells = { λ it s. told (fields_of warning 23 23 s) };

    fn reread(&self, s: &[u8]) -> Result<(), Refusal> {
        fields(s)?;
        Ok(())
    }
}

// Where each field that may be corrected stands in a warning of type `kind`, and its width.
fn stands(kind: u64, field: usize) -> Option<Spot>
    ensures { StandsAt (spot_of (kind_of kind) (field_of kind field)) (at_of result) (width_of result) }
{
    match field {
        Warning::REPEAT => Some(Spot { at: 6, width: 2 }),
        Warning::SOURCE => Some(Spot { at: 8, width: 30 }),
        Warning::LONGITUDE => Some(Spot { at: 60, width: 23 }),
        Warning::LATITUDE => Some(Spot { at: 83, width: 23 }),
        Warning::TIME => Some(Spot { at: 156, width: 20 }),
        Warning::HOURS => Some(Spot { at: 176, width: 6 }),
        _ => own(kind, field),
    }
}

// The same of a field of its body.
fn own(kind: u64, field: usize) -> Option<Spot>
    ensures { StandsAt (own_spot (kind_of kind) field) (at_of result) (width_of result) }
{
    match kind {
        1 => cyclone(field),
        2 => gale(field),
        3 => waves(field),
        4 => fog(field),
        _ => surge(field),
    }
}

fn cyclone(field: usize) -> Option<Spot>
    ensures { StandsAt (own_spot cyclone field) (at_of result) (width_of result) }
{
    match field {
        Warning::CYCLONE_KIND => Some(Spot { at: 106, width: 3 }),
        Warning::CYCLONE_GALE_RADIUS => Some(Spot { at: 109, width: 9 }),
        Warning::CYCLONE_STORM_RADIUS => Some(Spot { at: 118, width: 9 }),
        Warning::CYCLONE_SPEED => Some(Spot { at: 127, width: 6 }),
        Warning::CYCLONE_DIRECTION => Some(Spot { at: 133, width: 9 }),
        Warning::CYCLONE_FORCE => Some(Spot { at: 142, width: 5 }),
        Warning::CYCLONE_PRESSURE => Some(Spot { at: 147, width: 9 }),
        _ => None,
    }
}

fn gale(field: usize) -> Option<Spot>
    ensures { StandsAt (own_spot gale field) (at_of result) (width_of result) }
{
    match field {
        Warning::GALE_RADIUS => Some(Spot { at: 106, width: 8 }),
        Warning::GALE_LEAST => Some(Spot { at: 114, width: 5 }),
        Warning::GALE_GREATEST => Some(Spot { at: 119, width: 5 }),
        Warning::GALE_DIRECTION => Some(Spot { at: 124, width: 4 }),
        _ => None,
    }
}

fn waves(field: usize) -> Option<Spot>
    ensures { StandsAt (own_spot waves field) (at_of result) (width_of result) }
{
    match field {
        Warning::WAVES_RADIUS => Some(Spot { at: 106, width: 8 }),
        Warning::WAVES_HEIGHT => Some(Spot { at: 114, width: 5 }),
        Warning::WAVES_PERIOD => Some(Spot { at: 119, width: 13 }),
        _ => None,
    }
}

fn fog(field: usize) -> Option<Spot>
    ensures { StandsAt (own_spot fog field) (at_of result) (width_of result) }
{
    match field {
        Warning::FOG_RADIUS => Some(Spot { at: 106, width: 9 }),
        Warning::FOG_VISIBILITY => Some(Spot { at: 115, width: 8 }),
        _ => None,
    }
}

fn surge(field: usize) -> Option<Spot>
    ensures { StandsAt (own_spot surge field) (at_of result) (width_of result) }
{
    match field {
        Warning::SURGE_RADIUS => Some(Spot { at: 106, width: 9 }),
        Warning::SURGE_RISE => Some(Spot { at: 115, width: 9 }),
        Warning::SURGE_TIDE => Some(Spot { at: 124, width: 10 }),
        Warning::SURGE_PERIOD => Some(Spot { at: 134, width: 13 }),
        _ => None,
    }
}
