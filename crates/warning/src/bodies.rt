// The five bodies of a warning (paper 01, "AIS"; 003, tables 58 to 62): what stands behind its position.
ghost use Rattle.std.specs.Prelude.{◌≡◌};
ghost use Rattle.warning.specs.Bodies.{cyclone, gale, waves, fog, surge, kind_of, type_of, body_kind};
ghost use Rattle.walk.specs.Walk.{seen};
ghost use Rattle.warning.specs.Steps.{BodyRead};

use walk::walk::Walk;

// A number outside the range that 003 prints for it means none; it is carried.
#[derive(Clone, Copy)]
pub struct Cyclone {
    // 1 to 4.
    pub kind: u8,
    // Kilometres, of force 8 and of force 10.
    pub gale_radius: u16,
    pub storm_radius: u16,
    // Kilometres an hour, degrees.
    pub speed: u8,
    pub direction: u16,
    pub force: u8,
    // Hectopascal above 800.
    pub pressure: u16,
}

#[derive(Clone, Copy)]
pub struct Gale {
    // Nautical miles.
    pub radius: u8,
    // Forces of the wind.
    pub least: u8,
    pub greatest: u8,
    // 1 to 8, from the east on.
    pub direction: u8,
}

#[derive(Clone, Copy)]
pub struct Waves {
    // Kilometres, metres, seconds.
    pub radius: u8,
    pub height: u8,
    pub period: u16,
}

#[derive(Clone, Copy)]
pub struct Fog {
    // Kilometres.
    pub radius: u16,
    // Tenths of a nautical mile, 0 to 250.
    pub visibility: u8,
}

#[derive(Clone, Copy)]
pub struct Surge {
    // Nautical miles.
    pub radius: u16,
    // Centimetres.
    pub rise: u16,
    pub tide: u16,
    // Seconds.
    pub period: u16,
}

#[derive(Clone, Copy)]
pub enum Body {
    Cyclone(Cyclone),
    Gale(Gale),
    Waves(Waves),
    Fog(Fog),
    Surge(Surge),
}

impl Body {
    // Its warning type: an enum whose cases carry values has no cast to a number.
    pub fn kind(self) -> u8
        ensures { result ≡ type_of (body_kind self) }
    {
        match self {
            Body::Cyclone(_) => 1,
            Body::Gale(_) => 2,
            Body::Waves(_) => 3,
            Body::Fog(_) => 4,
            Body::Surge(_) => 5,
        }
    }
}

// ---- reading: each body by the paragraph of its own; those alike in shape differ in names, widths and limits, which one function
// over a table of numbers would hide

// The body of a warning of type `kind`, and the walk past it; one of no type is read as the last.
pub(crate) fn read(s: &[u8], kind: u64, w: Walk) -> (Walk, Body)
    ensures { BodyRead s.now (kind_of kind) (seen w) (seen result.0) result.1 }
{
    match kind {
        1 => read_cyclone(s, w),
        2 => read_gale(s, w),
        3 => read_waves(s, w),
        4 => read_fog(s, w),
        _ => read_surge(s, w),
    }
}

fn read_cyclone(s: &[u8], w: Walk) -> (Walk, Body)
    ensures { BodyRead s.now cyclone (seen w) (seen result.0) result.1 }
{
    let w = w.num(s, 3, 1, 4);
    let kind = w.v as u8;
    let w = w.num(s, 9, 0, 511);
    let gale_radius = w.v as u16;
    let w = w.num(s, 9, 0, 511);
    let storm_radius = w.v as u16;
    let w = w.num(s, 6, 0, 63);
    let speed = w.v as u8;
    let w = w.num(s, 9, 0, 511);
    let direction = w.v as u16;
    let w = w.num(s, 5, 0, 31);
    let force = w.v as u8;
    let w = w.num(s, 9, 0, 511);
    let pressure = w.v as u16;
    let cyclone = Cyclone {
        kind,
        gale_radius,
        storm_radius,
        speed,
        direction,
        force,
        pressure,
    };
    (w, Body::Cyclone(cyclone))
}

fn read_gale(s: &[u8], w: Walk) -> (Walk, Body)
    ensures { BodyRead s.now gale (seen w) (seen result.0) result.1 }
{
    let w = w.num(s, 8, 0, 255);
    let radius = w.v as u8;
    let w = w.num(s, 5, 0, 31);
    let least = w.v as u8;
    let w = w.num(s, 5, 0, 31);
    let greatest = w.v as u8;
    let w = w.num(s, 4, 1, 8);
    let direction = w.v as u8;
    let w = w.fill(s, 28);
    let gale = Gale {
        radius,
        least,
        greatest,
        direction,
    };
    (w, Body::Gale(gale))
}

fn read_waves(s: &[u8], w: Walk) -> (Walk, Body)
    ensures { BodyRead s.now waves (seen w) (seen result.0) result.1 }
{
    let w = w.num(s, 8, 0, 255);
    let radius = w.v as u8;
    let w = w.num(s, 5, 0, 31);
    let height = w.v as u8;
    let w = w.num(s, 13, 0, 8_191);
    let period = w.v as u16;
    let w = w.fill(s, 24);
    let waves = Waves {
        radius,
        height,
        period,
    };
    (w, Body::Waves(waves))
}

fn read_fog(s: &[u8], w: Walk) -> (Walk, Body)
    ensures { BodyRead s.now fog (seen w) (seen result.0) result.1 }
{
    let w = w.num(s, 9, 0, 511);
    let radius = w.v as u16;
    let w = w.num(s, 8, 0, 250);
    let visibility = w.v as u8;
    let w = w.blank(s, 33);
    let fog = Fog { radius, visibility };
    (w, Body::Fog(fog))
}

fn read_surge(s: &[u8], w: Walk) -> (Walk, Body)
    ensures { BodyRead s.now surge (seen w) (seen result.0) result.1 }
{
    let w = w.num(s, 9, 0, 511);
    let radius = w.v as u16;
    let w = w.num(s, 9, 0, 511);
    let rise = w.v as u16;
    let w = w.num(s, 10, 0, 1_023);
    let tide = w.v as u16;
    let w = w.num(s, 13, 0, 8_191);
    let period = w.v as u16;
    let w = w.fill(s, 9);
    let surge = Surge {
        radius,
        rise,
        tide,
        period,
    };
    (w, Body::Surge(surge))
}
