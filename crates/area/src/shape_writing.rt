// Writing a shape of an area (003, tables 39 and 40): its record judged, then put.
ghost use Rattle.walk.specs.Walk.{seen};
ghost use Rattle.area.specs.Steps.{PointJudged, ShapeJudged, ShapePut};
ghost use Rattle.area.specs.declared.reading.shapes.Shape.TheVariants.{Circle as IsCircle, Rectangle as IsRectangle};

use crate::reading::shapes::{Circle, EAST, NORTH, Rectangle, Shape};
use walk::walk::Walk;

pub(crate) fn judged(w: Walk, shape: Shape) -> Walk
    ensures { ShapeJudged shape (seen w) (seen result) }
{
    match shape {
        Shape::Circle(b) => judged_circle(w, b),
        Shape::Rectangle(b) => judged_rectangle(w, b),
    }
}

fn judged_circle(w: Walk, b: Circle) -> Walk
    ensures { ShapeJudged (IsCircle b) (seen w) (seen result) }
{
    let w = judged_point(w, b.longitude, b.latitude);
    w.value(7, b.radius as u64, 0, 127).fixed(48, 0)
}

fn judged_rectangle(w: Walk, b: Rectangle) -> Walk
    ensures { ShapeJudged (IsRectangle b) (seen w) (seen result) }
{
    let w = judged_point(w, b.longitude, b.latitude);
    judged_point(w, b.second_longitude, b.second_latitude)
}

fn judged_point(w: Walk, longitude: i32, latitude: i32) -> Walk
    ensures { PointJudged longitude latitude (seen w) (seen result) }
{
    let east = walk::sign::spelled(longitude, EAST);
    let north = walk::sign::spelled(latitude, NORTH);
    let w = w.signed_value(28, east, EAST, 108_000_000, 160_435_456, 108_600_000);
    w.signed_value(27, north, NORTH, 54_000_000, 80_217_728, 54_600_000)
}

pub(crate) fn put(buf: &mut [u8], shape: Shape)
    ensures { ShapePut shape buf.old buf.new }
{
    match shape {
        Shape::Circle(b) => put_circle(buf, b),
        Shape::Rectangle(b) => put_rectangle(buf, b),
    }
}

fn put_circle(buf: &mut [u8], b: Circle)
    ensures { ShapePut (IsCircle b) buf.old buf.new }
{
    let longitude = walk::sign::spelled(b.longitude, EAST);
    let latitude = walk::sign::spelled(b.latitude, NORTH);
    bits::put(buf, 94, 28, longitude);
    bits::put(buf, 122, 27, latitude);
    bits::put(buf, 149, 7, b.radius as u64);
    bits::put(buf, 156, 32, 0);
    bits::put(buf, 188, 16, 0);
}

fn put_rectangle(buf: &mut [u8], b: Rectangle)
    ensures { ShapePut (IsRectangle b) buf.old buf.new }
{
    let longitude = walk::sign::spelled(b.longitude, EAST);
    let latitude = walk::sign::spelled(b.latitude, NORTH);
    let second_longitude = walk::sign::spelled(b.second_longitude, EAST);
    let second_latitude = walk::sign::spelled(b.second_latitude, NORTH);
    bits::put(buf, 94, 28, longitude);
    bits::put(buf, 122, 27, latitude);
    bits::put(buf, 149, 28, second_longitude);
    bits::put(buf, 177, 27, second_latitude);
}
