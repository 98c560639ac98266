// Writing a report, step by step: its fields as numbers, judged, then put.
ghost use Rattle.std.specs.Prelude.{◌≡◌, []};
ghost use Rattle.distress.specs.Report.{report, values_of};
ghost use Rattle.distress.specs.Values.{list_of};
ghost use Rattle.format.specs.Fmt.{write};
ghost use Rattle.walk.specs.Laws.Judging.{Judged};
ghost use Rattle.walk.specs.Walk.{seen};
ghost use Rattle.format.specs.Laws.Putting.{Puts};

use crate::reading::{CODE, Report};

// A record's fields as the numbers that their bits spell.
#[derive(Clone, Copy)]
pub(crate) struct Values {
    mmsi: u64,
    longitude: u64,
    latitude: u64,
    day: u64,
    hour: u64,
    minute: u64,
    speed: u64,
    course: u64,
    kind: u64,
}

pub(crate) fn spelled(r: Report) -> Values
    ensures { list_of result ≡ values_of r }
{
    let east = r.longitude;
    let north = r.latitude;
    let longitude = walk::sign::spelled(east, 33_554_432);
    let latitude = walk::sign::spelled(north, 16_777_216);
    Values {
        mmsi: r.mmsi as u64,
        longitude,
        latitude,
        day: r.day as u64,
        hour: r.hour as u64,
        minute: r.minute as u64,
        speed: r.speed as u64,
        course: r.course as u64,
        kind: r.kind as u64,
    }
}

// The values judged in bit order.
pub(crate) fn judged(v: Values) -> walk::walk::Walk
    ensures { Judged (write report [] 0 (list_of v)) (seen result) }
{
    let w = walk::walk::Walk::begin(0);
    let w = w.fixed(16, CODE);
    let w = w.value(32, v.mmsi, 0, 999_999_999);
    let w = w.signed_value(
        25,
        v.longitude,
        33_554_432,
        10_800_000,
        22_754_432,
        10_860_000,
    );
    let w = w.signed_value(24, v.latitude, 16_777_216, 5_400_000, 11_377_216, 5_460_000);
    let w = w.value(5, v.day, 0, 31);
    let w = w.value(5, v.hour, 0, 24);
    let w = w.value(6, v.minute, 0, 60);
    let w = w.value(7, v.speed, 0, 126);
    let w = w.value(9, v.course, 0, 360);
    let w = w.value(4, v.kind, 0, 9);
    w.fixed(3, 0)
}

pub(crate) fn put(buf: &mut [u8], v: Values)
    ensures { Puts report (list_of v) buf.old buf.new }
{
    bits::put(buf, 0, 16, CODE);
    bits::put(buf, 16, 32, v.mmsi);
    bits::put(buf, 48, 25, v.longitude);
    bits::put(buf, 73, 24, v.latitude);
    bits::put(buf, 97, 5, v.day);
    bits::put(buf, 102, 5, v.hour);
    bits::put(buf, 107, 6, v.minute);
    bits::put(buf, 113, 7, v.speed);
    bits::put(buf, 120, 9, v.course);
    bits::put(buf, 129, 4, v.kind);
    bits::put(buf, 133, 3, 0);
}
