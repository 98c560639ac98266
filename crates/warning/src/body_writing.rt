// Writing a body of a warning (003, tables 58 to 62): its record judged, then put.
ghost use Rattle.walk.specs.Walk.{seen};
ghost use Rattle.warning.specs.Steps.{BodyJudged, BodyPut};
ghost use Rattle.warning.specs.declared.bodies.Body.TheVariants.{Cyclone as IsCyclone, Gale as IsGale, Waves as IsWaves, Fog as IsFog, Surge as IsSurge};

use crate::bodies::{Body, Cyclone, Fog, Gale, Surge, Waves};
use walk::walk::Walk;

pub(crate) fn judged(w: Walk, body: Body) -> Walk
    ensures { BodyJudged body (seen w) (seen result) }
{
    match body {
        Body::Cyclone(b) => judged_cyclone(w, b),
        Body::Gale(b) => judged_gale(w, b),
        Body::Waves(b) => judged_waves(w, b),
        Body::Fog(b) => judged_fog(w, b),
        Body::Surge(b) => judged_surge(w, b),
    }
}

fn judged_cyclone(w: Walk, b: Cyclone) -> Walk
    ensures { BodyJudged (IsCyclone b) (seen w) (seen result) }
{
    let w = w.value(3, b.kind as u64, 1, 4);
    let w = w.value(9, b.gale_radius as u64, 0, 511);
    let w = w.value(9, b.storm_radius as u64, 0, 511);
    let w = w.value(6, b.speed as u64, 0, 63);
    let w = w.value(9, b.direction as u64, 0, 511);
    let w = w.value(5, b.force as u64, 0, 31);
    w.value(9, b.pressure as u64, 0, 511)
}

fn judged_gale(w: Walk, b: Gale) -> Walk
    ensures { BodyJudged (IsGale b) (seen w) (seen result) }
{
    let w = w.value(8, b.radius as u64, 0, 255);
    let w = w.value(5, b.least as u64, 0, 31);
    let w = w.value(5, b.greatest as u64, 0, 31);
    let w = w.value(4, b.direction as u64, 1, 8);
    w.fixed(28, 0)
}

fn judged_waves(w: Walk, b: Waves) -> Walk
    ensures { BodyJudged (IsWaves b) (seen w) (seen result) }
{
    let w = w.value(8, b.radius as u64, 0, 255);
    let w = w.value(5, b.height as u64, 0, 31);
    let w = w.value(13, b.period as u64, 0, 8_191);
    w.fixed(24, 0)
}

fn judged_fog(w: Walk, b: Fog) -> Walk
    ensures { BodyJudged (IsFog b) (seen w) (seen result) }
{
    let w = w.value(9, b.radius as u64, 0, 511);
    let w = w.value(8, b.visibility as u64, 0, 250);
    w.fixed(33, 0)
}

fn judged_surge(w: Walk, b: Surge) -> Walk
    ensures { BodyJudged (IsSurge b) (seen w) (seen result) }
{
    let w = w.value(9, b.radius as u64, 0, 511);
    let w = w.value(9, b.rise as u64, 0, 511);
    let w = w.value(10, b.tide as u64, 0, 1_023);
    let w = w.value(13, b.period as u64, 0, 8_191);
    w.fixed(9, 0)
}

pub(crate) fn put(buf: &mut [u8], body: Body)
    ensures { BodyPut body buf.old buf.new }
{
    match body {
        Body::Cyclone(b) => put_cyclone(buf, b),
        Body::Gale(b) => put_gale(buf, b),
        Body::Waves(b) => put_waves(buf, b),
        Body::Fog(b) => put_fog(buf, b),
        Body::Surge(b) => put_surge(buf, b),
    }
}

fn put_cyclone(buf: &mut [u8], b: Cyclone)
    ensures { BodyPut (IsCyclone b) buf.old buf.new }
{
    bits::put(buf, 106, 3, b.kind as u64);
    bits::put(buf, 109, 9, b.gale_radius as u64);
    bits::put(buf, 118, 9, b.storm_radius as u64);
    bits::put(buf, 127, 6, b.speed as u64);
    bits::put(buf, 133, 9, b.direction as u64);
    bits::put(buf, 142, 5, b.force as u64);
    bits::put(buf, 147, 9, b.pressure as u64);
}

fn put_gale(buf: &mut [u8], b: Gale)
    ensures { BodyPut (IsGale b) buf.old buf.new }
{
    bits::put(buf, 106, 8, b.radius as u64);
    bits::put(buf, 114, 5, b.least as u64);
    bits::put(buf, 119, 5, b.greatest as u64);
    bits::put(buf, 124, 4, b.direction as u64);
    bits::put(buf, 128, 28, 0);
}

fn put_waves(buf: &mut [u8], b: Waves)
    ensures { BodyPut (IsWaves b) buf.old buf.new }
{
    bits::put(buf, 106, 8, b.radius as u64);
    bits::put(buf, 114, 5, b.height as u64);
    bits::put(buf, 119, 13, b.period as u64);
    bits::put(buf, 132, 24, 0);
}

fn put_fog(buf: &mut [u8], b: Fog)
    ensures { BodyPut (IsFog b) buf.old buf.new }
{
    bits::put(buf, 106, 9, b.radius as u64);
    bits::put(buf, 115, 8, b.visibility as u64);
    bits::put(buf, 123, 32, 0);
    bits::put(buf, 155, 1, 0);
}

fn put_surge(buf: &mut [u8], b: Surge)
    ensures { BodyPut (IsSurge b) buf.old buf.new }
{
    bits::put(buf, 106, 9, b.radius as u64);
    bits::put(buf, 115, 9, b.rise as u64);
    bits::put(buf, 124, 10, b.tide as u64);
    bits::put(buf, 134, 13, b.period as u64);
    bits::put(buf, 147, 9, 0);
}
