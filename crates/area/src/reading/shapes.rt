// The two shapes of an area (003, tables 39 and 40): 110 bits.
ghost use Rattle.std.specs.Prelude.{◌≡◌};
ghost use Rattle.area.specs.Shapes.{circle, rectangle, kind_of, type_of, shape_kind};
ghost use Rattle.walk.specs.Walk.{seen};
ghost use Rattle.area.specs.Steps.{east_read, north_read, ShapeRead};

use walk::walk::Walk;

// Ten-thousandths of a minute, 108,600,000 and 54,600,000 for none.
#[derive(Clone, Copy)]
pub struct Circle {
    pub longitude: i32,
    pub latitude: i32,
    // Tenths of a nautical mile.
    pub radius: u8,
}

#[derive(Clone, Copy)]
pub struct Rectangle {
    pub longitude: i32,
    pub latitude: i32,
    pub second_longitude: i32,
    pub second_latitude: i32,
}

#[derive(Clone, Copy)]
pub enum Shape {
    Circle(Circle),
    Rectangle(Rectangle),
}

impl Shape {
    // Its number in the message: an enum whose cases carry values has no cast to a number.
    pub fn kind(self) -> u8
        ensures { result ≡ type_of (shape_kind self) }
    {
        match self {
            Shape::Circle(_) => 1,
            Shape::Rectangle(_) => 2,
        }
    }
}

// How many numbers two's complement has in the bits of a longitude and of a latitude.
pub const EAST: u64 = 268_435_456;

pub const NORTH: u64 = 134_217_728;

// ---- reading

// The shape of number `kind`, and the walk past it; one of no shape's is read as the last.
pub(crate) fn read(s: &[u8], kind: u64, w: Walk) -> (Walk, Shape)
    ensures { ShapeRead s.now (kind_of kind) (seen w) (seen result.0) result.1 }
{
    match kind {
        1 => read_circle(s, w),
        _ => read_rectangle(s, w),
    }
}

fn read_circle(s: &[u8], w: Walk) -> (Walk, Shape)
    ensures { ShapeRead s.now circle (seen w) (seen result.0) result.1 }
{
    let w = read_longitude(s, w);
    let longitude = walk::sign::int(w.v, EAST);
    let w = read_latitude(s, w);
    let latitude = walk::sign::int(w.v, NORTH);
    let w = w.num(s, 7, 0, 127);
    let radius = w.v as u8;
    let w = w.blank(s, 48);
    let circle = Circle {
        longitude,
        latitude,
        radius,
    };
    (w, Shape::Circle(circle))
}

fn read_rectangle(s: &[u8], w: Walk) -> (Walk, Shape)
    ensures { ShapeRead s.now rectangle (seen w) (seen result.0) result.1 }
{
    let w = read_longitude(s, w);
    let longitude = walk::sign::int(w.v, EAST);
    let w = read_latitude(s, w);
    let latitude = walk::sign::int(w.v, NORTH);
    let w = read_longitude(s, w);
    let second_longitude = walk::sign::int(w.v, EAST);
    let w = read_latitude(s, w);
    let second_latitude = walk::sign::int(w.v, NORTH);
    let rectangle = Rectangle {
        longitude,
        latitude,
        second_longitude,
        second_latitude,
    };
    (w, Shape::Rectangle(rectangle))
}

// A position's numbers, in two functions: one would be too long for the compiler to put it where it is called.
fn read_longitude(s: &[u8], w: Walk) -> Walk
    ensures { seen result ≡ east_read s.now (seen w) }
{
    w.signed(s, 28, 108_000_000, 160_435_456, 108_600_000)
}

fn read_latitude(s: &[u8], w: Walk) -> Walk
    ensures { seen result ≡ north_read s.now (seen w) }
{
    w.signed(s, 27, 54_000_000, 80_217_728, 54_600_000)
}
