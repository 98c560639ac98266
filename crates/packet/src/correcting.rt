// A packet corrected in place (paper 01, "Correcting a field").
ghost use Rattle.format.specs.Correcting.{StandsAt};
ghost use Rattle.format.specs.Promises.{Corrects};
ghost use Rattle.format.specs.Refusals.{told_of};
ghost use Rattle.walk.specs.Walk.{at_of, width_of};
ghost use Rattle.packet.specs.Changed.{spot_of};
ghost use Rattle.packet.specs.Packet.{packets};

use crate::reading::{Packet, fields, read};
use change::correcting::{Rereads, in_place};
use format::Refusal;
use walk::walk::Spot;

impl Packet {
    // The fields that may be corrected, by their position among the packet's.
    pub const LANGUAGE: usize = 2;

    pub const NUMBER: usize = 3;

    pub const TOTAL: usize = 4;

    pub const OWN: usize = 5;
}

// Makes field number `field` of the packet be `value`, or leaves every byte.
pub fn correct(buf: &mut [u8], field: usize, value: u64) -> Result<(), Refusal>
    ensures { Corrects packets buf.old field value (told_of result) buf.new }
{
    read(buf)?;
    let spot = stands(field);
    in_place(buf, false, spot, value, &Fields)
}

// The fields, read anew behind the change.
struct Fields;

impl Rereads for Fields {
    ghost use Rattle.format.specs.Message.{fields_of, told};
    ghost use Rattle.packet.specs.Packet.{packet, greatest};

    ghost tells = { λ it s. told (fields_of packet 5 greatest s) };

    fn reread(&self, s: &[u8]) -> Result<(), Refusal> {
        fields(s)?;
        Ok(())
    }
}

// Where each field that may be corrected stands in every packet, and its width. Code, version and content may not be.
fn stands(field: usize) -> Option<Spot>
    ensures { StandsAt (spot_of field) (at_of result) (width_of result) }
{
    match field {
        Packet::LANGUAGE => Some(Spot { at: 11, width: 1 }),
        Packet::NUMBER => Some(Spot { at: 12, width: 8 }),
        Packet::TOTAL => Some(Spot { at: 20, width: 6 }),
        Packet::OWN => Some(Spot { at: 26, width: 6 }),
        _ => None,
    }
}
