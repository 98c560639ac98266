// Message 6 with application 412/11, an area marked off (paper 01, "AIS"; 003, tables 4 and 38 to 40).
ghost use Rattle.format.specs.Promises.{Writes};
ghost use Rattle.format.specs.Refusals.{told_of};
ghost use Rattle.area.specs.Area.{areas, values_of};

use crate::reading::Area;
use format::Refusal;

mod making;

// Writes the area into the front of a lent buffer: the record is judged, then room (6); the bytes past the message stay.
pub fn write(buf: &mut [u8], r: Area) -> Result<(), Refusal>
    ensures { Writes areas buf.old (told_of result) buf.new (values_of r) }
{
    let time = r.time.spelled();
    let second = r.second_time.spelled();
    match making::judged(r, time, second).closes(false, Area::LEAST, Area::GREATEST, buf.len()) {
        Ok(()) => {
            making::put(buf, r, time, second);
            Ok(())
        },
        // It is judged once more for its bit, so that a good record carries none.
        Err(_) => {
            making::judged(r, time, second).closes(false, Area::LEAST, Area::GREATEST, buf.len())
        },
    }
}
