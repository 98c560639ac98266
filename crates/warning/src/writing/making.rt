// Writing a warning: its record judged, then put.
ghost use Rattle.std.specs.Prelude.{[]};
ghost use Rattle.format.specs.Fmt.{write as Fmt·write};
ghost use Rattle.format.specs.Laws.Putting.{Puts};
ghost use Rattle.walk.specs.Laws.Judging.{Judged};
ghost use Rattle.walk.specs.Walk.{seen};
ghost use Rattle.warning.specs.Warning.{warning, values_as};

use crate::reading::Warning;

// `time` is the number that the record's time spells.
pub(crate) fn judged(r: Warning, time: u64) -> walk::walk::Walk
    ensures { Judged (Fmt·write warning [] 0 (values_as r time)) (seen result) }
{
    let body = r.body;
    let kind = body.kind();
    let w = walk::walk::Walk::begin(0).fixed(6, crate::reading::MESSAGE);
    let w = w.value(2, r.repeat as u64, 0, 3);
    let w = w.value(30, r.source as u64, 0, 999_999_999);
    let w = w
        .fixed(2, 0)
        .fixed(10, ais_common::head::AUTHORITY)
        .fixed(6, crate::reading::APPLICATION);
    let w = w.fixed(4, kind as u64);
    let w = w.value(23, r.longitude as u64, 0, 7_200_000);
    let w = w.value(23, r.latitude as u64, 0, 7_200_000);
    let w = crate::body_writing::judged(w, body);
    let w = ais_common::time::judged(w, time);
    w.value(6, r.hours as u64, 0, 48).fixed(2, 0)
}

pub(crate) fn put(buf: &mut [u8], r: Warning, time: u64)
    ensures { Puts warning (values_as r time) buf.old buf.new }
{
    let body = r.body;
    let kind = body.kind();
    bits::put(buf, 0, 6, crate::reading::MESSAGE);
    bits::put(buf, 6, 2, r.repeat as u64);
    bits::put(buf, 8, 30, r.source as u64);
    bits::put(buf, 38, 2, 0);
    bits::put(buf, 40, 10, ais_common::head::AUTHORITY);
    bits::put(buf, 50, 6, crate::reading::APPLICATION);
    bits::put(buf, 56, 4, kind as u64);
    bits::put(buf, 60, 23, r.longitude as u64);
    bits::put(buf, 83, 23, r.latitude as u64);
    crate::body_writing::put(buf, body);
    bits::put(buf, 156, 20, time);
    bits::put(buf, 176, 6, r.hours as u64);
    bits::put(buf, 182, 2, 0);
}
