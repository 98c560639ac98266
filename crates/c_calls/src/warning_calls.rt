// A warning, message 8 with application 412/03: writing and correcting.
ghost use Rattle.format.specs.Refusals.{told_of};
ghost use Rattle.std.specs.Prelude.{get_or};
ghost use Rattle.bits.specs.Bits.{field_at};
ghost use Rattle.c_rows.specs.Warning.{record_of, cyclone_of, gale_of, waves_of, fog_of, surge_of};
ghost use Rattle.format.specs.Promises.{Writes, Corrects, Packs};
ghost use Rattle.warning.specs.Changed.{field_of};
ghost use Rattle.warning.specs.Warning.{warnings, values_of};

use ais_common::time::Time;
use format::{Refusal, packed};
use warning::Warning;
use warning::bodies::{Body, Cyclone, Fog, Gale, Surge, Waves};

// Makes field number `field` of the warning be `value`, or leaves every byte.
#[unsafe(no_mangle)]
pub extern "C" fn bellnewt_warning_correct(s: &mut [u8], field: usize, value: u64) -> u32
    ensures { Packs (λ refusal. Corrects warnings s.old (field_of (field_at s.old 56 4) field) value refusal s.new) result }
{
    packed(warning::correct(s, field, value))
}

// Writes a cyclone's warning of these numbers into the front of a lent buffer.
#[unsafe(no_mangle)]
pub extern "C" fn bellnewt_cyclone_write(
    buf: &mut [u8],
    repeat: u8,
    source: u32,
    longitude: u32,
    latitude: u32,
    kind: u8,
    gale_radius: u16,
    storm_radius: u16,
    speed: u8,
    direction: u16,
    force: u8,
    pressure: u16,
    month: u8,
    day: u8,
    hour: u8,
    minute: u8,
    hours: u8,
) -> u32
    ensures { Packs (λ refusal. Writes warnings buf.old refusal buf.new (values_of (record_of repeat source longitude latitude (cyclone_of kind gale_radius storm_radius speed direction force pressure) month day hour minute hours))) result }
{
    let numbers = Cyclone {
        kind,
        gale_radius,
        storm_radius,
        speed,
        direction,
        force,
        pressure,
    };
    let body = Body::Cyclone(numbers);
    let when = [month, day, hour, minute, hours];
    packed(written(buf, repeat, source, longitude, latitude, body, when))
}

// Writes a gale's warning of these numbers into the front of a lent buffer.
#[unsafe(no_mangle)]
pub extern "C" fn bellnewt_gale_write(
    buf: &mut [u8],
    repeat: u8,
    source: u32,
    longitude: u32,
    latitude: u32,
    radius: u8,
    least: u8,
    greatest: u8,
    direction: u8,
    month: u8,
    day: u8,
    hour: u8,
    minute: u8,
    hours: u8,
) -> u32
    ensures { Packs (λ refusal. Writes warnings buf.old refusal buf.new (values_of (record_of repeat source longitude latitude (gale_of radius least greatest direction) month day hour minute hours))) result }
{
    let numbers = Gale {
        radius,
        least,
        greatest,
        direction,
    };
    let body = Body::Gale(numbers);
    let when = [month, day, hour, minute, hours];
    packed(written(buf, repeat, source, longitude, latitude, body, when))
}

// Writes a warning of waves of these numbers into the front of a lent buffer.
#[unsafe(no_mangle)]
pub extern "C" fn bellnewt_waves_write(
    buf: &mut [u8],
    repeat: u8,
    source: u32,
    longitude: u32,
    latitude: u32,
    radius: u8,
    height: u8,
    period: u16,
    month: u8,
    day: u8,
    hour: u8,
    minute: u8,
    hours: u8,
) -> u32
    ensures { Packs (λ refusal. Writes warnings buf.old refusal buf.new (values_of (record_of repeat source longitude latitude (waves_of radius height period) month day hour minute hours))) result }
{
    let numbers = Waves {
        radius,
        height,
        period,
    };
    let body = Body::Waves(numbers);
    let when = [month, day, hour, minute, hours];
    packed(written(buf, repeat, source, longitude, latitude, body, when))
}

// Writes a warning of fog of these numbers into the front of a lent buffer.
#[unsafe(no_mangle)]
pub extern "C" fn bellnewt_fog_write(
    buf: &mut [u8],
    repeat: u8,
    source: u32,
    longitude: u32,
    latitude: u32,
    radius: u16,
    visibility: u8,
    month: u8,
    day: u8,
    hour: u8,
    minute: u8,
    hours: u8,
) -> u32
    ensures { Packs (λ refusal. Writes warnings buf.old refusal buf.new (values_of (record_of repeat source longitude latitude (fog_of radius visibility) month day hour minute hours))) result }
{
    let numbers = Fog { radius, visibility };
    let body = Body::Fog(numbers);
    let when = [month, day, hour, minute, hours];
    packed(written(buf, repeat, source, longitude, latitude, body, when))
}

// Writes a warning of a storm surge of these numbers into the front of a lent buffer.
#[unsafe(no_mangle)]
pub extern "C" fn bellnewt_surge_write(
    buf: &mut [u8],
    repeat: u8,
    source: u32,
    longitude: u32,
    latitude: u32,
    radius: u16,
    rise: u16,
    tide: u16,
    period: u16,
    month: u8,
    day: u8,
    hour: u8,
    minute: u8,
    hours: u8,
) -> u32
    ensures { Packs (λ refusal. Writes warnings buf.old refusal buf.new (values_of (record_of repeat source longitude latitude (surge_of radius rise tide period) month day hour minute hours))) result }
{
    let numbers = Surge {
        radius,
        rise,
        tide,
        period,
    };
    let body = Body::Surge(numbers);
    let when = [month, day, hour, minute, hours];
    packed(written(buf, repeat, source, longitude, latitude, body, when))
}

// The warning of these numbers, a body, and its time with how many hours it holds, written into the front of a lent buffer.
fn written(
    buf: &mut [u8],
    repeat: u8,
    source: u32,
    longitude: u32,
    latitude: u32,
    body: Body,
    when: [u8; 5],
) -> Result<(), Refusal>
    ensures { Writes warnings buf.old (told_of result) buf.new (values_of (record_of repeat source longitude latitude body (get_or when 0 0) (get_or when 1 0) (get_or when 2 0) (get_or when 3 0) (get_or when 4 0))) }
{
    let time = Time {
        month: when[0],
        day: when[1],
        hour: when[2],
        minute: when[3],
    };
    let hours = when[4];
    let r = Warning {
        repeat,
        source,
        longitude,
        latitude,
        body,
        time,
        hours,
    };
    warning::write(buf, r)
}
