// Correcting a field of a notice (paper 01, "Correcting a field"), in its own bytes.
ghost use Rattle.std.specs.Prelude.{cond, ◌≤◌, ltb, get_or};
ghost use Rattle.format.specs.Correcting.{standing, StandsAt};
ghost use Rattle.format.specs.Fmt.{none};
ghost use Rattle.format.specs.Promises.{Corrects};
ghost use Rattle.format.specs.Refusals.{told_of};
ghost use Rattle.notice.specs.Changed.{spots};
ghost use Rattle.notice.specs.Notice.{ours, notices};
ghost use Rattle.walk.specs.Walk.{at_of, width_of};

use crate::reading::{Notice, passed_fields};
use change::correcting::{Rereads, in_place};
use format::Refusal;
use walk::walk::Spot;

impl Notice {
    // The numbers of the fields that may be corrected, by their position among the notice's: those of the head, and from FIRST_ENTRY on
    // the numbers of its areas as they stand in the row (codes, latitudes, longitudes, radii and units).
    pub const SOURCE: usize = 0;

    pub const STATION: usize = 1;

    pub const SERIAL: usize = 2;

    pub const YEAR: usize = 3;

    pub const TYPE: usize = 4;

    pub const SUBTYPE: usize = 5;

    pub const EXPIRY: usize = 6;

    pub const FIRST_ENTRY: usize = 8;
}

// Makes field number `field` of the notice be `value`, or leaves every byte.
pub fn correct(buf: &mut [u8], english: bool, field: usize, value: u64) -> Result<(), Refusal>
    ensures { Corrects (notices (ours english)) buf.old field value (told_of result) buf.new }
{
    let course = passed_fields(buf, field, english)?;
    let spot = stands(field, course.walk.spot);
    in_place(buf, false, spot, value, &Fields { english })
}

// The fields, read anew behind the change, in the same language.
#[derive(Drop)]
struct Fields {
    english: bool,
}

impl Rereads for Fields {
    ghost use Rattle.format.specs.Refusals.{shown};
    ghost use Rattle.notice.specs.Steps.{course_of};

    ghost tells = { λ it s. let w = (course_of it.english 0 s).walk in shown w.code w.offset };

    fn reread(&self, s: &[u8]) -> Result<(), Refusal> {
        passed_fields(s, 0, self.english)?;
        Ok(())
    }
}

// Where each field that may be corrected stands, and its width: those of the head are the same in every notice, and an entry of the
// areas stands where the walk found it.
fn stands(field: usize, found: Option<Spot>) -> Option<Spot>
    requires { width_of found ≤ 32 }
    ensures { StandsAt (cond (ltb field 8) (get_or spots field none) (standing (at_of found) (width_of found))) (at_of result) (width_of result) }
{
    match field {
        Notice::SOURCE => Some(Spot { at: 0, width: 5 }),
        Notice::STATION => Some(Spot { at: 5, width: 4 }),
        Notice::SERIAL => Some(Spot { at: 9, width: 14 }),
        Notice::YEAR => Some(Spot { at: 23, width: 7 }),
        Notice::TYPE => Some(Spot { at: 30, width: 4 }),
        Notice::SUBTYPE => Some(Spot { at: 34, width: 4 }),
        Notice::EXPIRY => Some(Spot { at: 38, width: 21 }),
        Notice::FIRST_ENTRY.. => found,
        _ => None,
    }
}
