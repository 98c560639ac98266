// Writing an area: its record judged, then put.
ghost use Rattle.std.specs.Prelude.{[]};
ghost use Rattle.format.specs.Fmt.{write as Fmt·write};
ghost use Rattle.format.specs.Laws.Putting.{Puts};
ghost use Rattle.walk.specs.Laws.Judging.{Judged};
ghost use Rattle.walk.specs.Walk.{seen};
ghost use Rattle.area.specs.Area.{area, values_as};

use crate::reading::Area;

// `time` and `second` are the numbers that the record's times spell.
pub(crate) fn judged(r: Area, time: u64, second: u64) -> walk::walk::Walk
    ensures { Judged (Fmt·write area [] 0 (values_as r time second)) (seen result) }
{
    let shape = r.shape;
    let kind = shape.kind();
    let w = walk::walk::Walk::begin(0).fixed(6, crate::reading::MESSAGE);
    let w = w.value(2, r.repeat as u64, 0, 3);
    let w = w.value(30, r.source as u64, 0, 999_999_999);
    let w = w.value(2, r.sequence as u64, 0, 3);
    let w = w.value(30, r.destination as u64, 0, 999_999_999);
    let w = w.value(1, r.resent as u64, 0, 1);
    let w = w
        .fixed(1, 0)
        .fixed(10, ais_common::head::AUTHORITY)
        .fixed(6, crate::reading::APPLICATION);
    let w = w.value(4, r.kind as u64, 1, 14);
    let w = w.fixed(2, kind as u64);
    let w = crate::shape_writing::judged(w, shape);
    let w = ais_common::time::judged(w, time);
    let w = ais_common::time::judged_short(w, second);
    w.value(4, r.advice as u64, 1, 6).fixed(6, 0)
}

pub(crate) fn put(buf: &mut [u8], r: Area, time: u64, second: u64)
    ensures { Puts area (values_as r time second) buf.old buf.new }
{
    let shape = r.shape;
    let kind = shape.kind();
    bits::put(buf, 0, 6, crate::reading::MESSAGE);
    bits::put(buf, 6, 2, r.repeat as u64);
    bits::put(buf, 8, 30, r.source as u64);
    bits::put(buf, 38, 2, r.sequence as u64);
    bits::put(buf, 40, 30, r.destination as u64);
    bits::put(buf, 70, 1, r.resent as u64);
    bits::put(buf, 71, 1, 0);
    bits::put(buf, 72, 10, ais_common::head::AUTHORITY);
    bits::put(buf, 82, 6, crate::reading::APPLICATION);
    bits::put(buf, 88, 4, r.kind as u64);
    bits::put(buf, 92, 2, kind as u64);
    crate::shape_writing::put(buf, shape);
    bits::put(buf, 204, 20, time);
    bits::put(buf, 224, 14, second);
    bits::put(buf, 238, 4, r.advice as u64);
    bits::put(buf, 242, 6, 0);
}
