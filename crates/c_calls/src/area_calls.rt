// An area, message 6 with application 412/11: writing and correcting.
ghost use Rattle.format.specs.Refusals.{told_of};
ghost use Rattle.std.specs.Prelude.{get_or};
ghost use Rattle.bits.specs.Bits.{field_at};
ghost use Rattle.c_rows.specs.Area.{record_of, circle_of, rectangle_of};
ghost use Rattle.area.specs.Area.{areas, values_of};
ghost use Rattle.area.specs.Changed.{field_of};
ghost use Rattle.format.specs.Promises.{Writes, Corrects, Packs};

use ais_common::time::{ShortTime, Time};
use area::{Area, Circle, Rectangle, Shape};
use format::{Refusal, packed};

// Makes field number `field` of the area be `value`, or leaves every byte.
#[unsafe(no_mangle)]
pub extern "C" fn bellnewt_area_correct(s: &mut [u8], field: usize, value: u64) -> u32
    ensures { Packs (λ refusal. Corrects areas s.old (field_of (field_at s.old 92 2) field) value refusal s.new) result }
{
    packed(area::correct(s, field, value))
}

// Writes a circle of these numbers into the front of a lent buffer.
#[unsafe(no_mangle)]
pub extern "C" fn bellnewt_circle_write(
    buf: &mut [u8],
    repeat: u8,
    source: u32,
    sequence: u8,
    destination: u32,
    resent: u8,
    kind: u8,
    longitude: i32,
    latitude: i32,
    radius: u8,
    month: u8,
    day: u8,
    hour: u8,
    minute: u8,
    second_month: u8,
    second_day: u8,
    second_hour: u8,
    advice: u8,
) -> u32
    ensures { Packs (λ refusal. Writes areas buf.old refusal buf.new (values_of (record_of repeat source sequence destination resent kind (circle_of longitude latitude radius) month day hour minute second_month second_day second_hour advice))) result }
{
    let numbers = Circle {
        longitude,
        latitude,
        radius,
    };
    let shape = Shape::Circle(numbers);
    let head = [repeat, sequence, resent, kind, advice];
    let time = [month, day, hour, minute];
    let second = [second_month, second_day, second_hour];
    packed(written(buf, source, destination, head, shape, time, second))
}

// Writes a rectangle of these numbers into the front of a lent buffer.
#[unsafe(no_mangle)]
pub extern "C" fn bellnewt_rectangle_write(
    buf: &mut [u8],
    repeat: u8,
    source: u32,
    sequence: u8,
    destination: u32,
    resent: u8,
    kind: u8,
    longitude: i32,
    latitude: i32,
    second_longitude: i32,
    second_latitude: i32,
    month: u8,
    day: u8,
    hour: u8,
    minute: u8,
    second_month: u8,
    second_day: u8,
    second_hour: u8,
    advice: u8,
) -> u32
    ensures { Packs (λ refusal. Writes areas buf.old refusal buf.new (values_of (record_of repeat source sequence destination resent kind (rectangle_of longitude latitude second_longitude second_latitude) month day hour minute second_month second_day second_hour advice))) result }
{
    let numbers = Rectangle {
        longitude,
        latitude,
        second_longitude,
        second_latitude,
    };
    let shape = Shape::Rectangle(numbers);
    let head = [repeat, sequence, resent, kind, advice];
    let time = [month, day, hour, minute];
    let second = [second_month, second_day, second_hour];
    packed(written(buf, source, destination, head, shape, time, second))
}

// The area of a source, a destination, its repeat, sequence, resent, kind and advice, a shape and its two times, written into the front of a lent buffer.
fn written(
    buf: &mut [u8],
    source: u32,
    destination: u32,
    head: [u8; 5],
    shape: Shape,
    time: [u8; 4],
    second: [u8; 3],
) -> Result<(), Refusal>
    ensures { Writes areas buf.old (told_of result) buf.new (values_of (record_of (get_or head 0 0) source (get_or head 1 0) destination (get_or head 2 0) (get_or head 3 0) shape (get_or time 0 0) (get_or time 1 0) (get_or time 2 0) (get_or time 3 0) (get_or second 0 0) (get_or second 1 0) (get_or second 2 0) (get_or head 4 0))) }
{
    let first = Time {
        month: time[0],
        day: time[1],
        hour: time[2],
        minute: time[3],
    };
    let second_time = ShortTime {
        month: second[0],
        day: second[1],
        hour: second[2],
    };
    let r = Area {
        repeat: head[0],
        source,
        sequence: head[1],
        destination,
        resent: head[2],
        kind: head[3],
        shape,
        time: first,
        second_time,
        advice: head[4],
    };
    area::write(buf, r)
}
