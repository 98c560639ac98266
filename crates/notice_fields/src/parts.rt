// The notice's fields that have several parts, and the limits of its subtype (paper 01, "Notice and packet"): read, and judged.
ghost use Rattle.std.specs.Prelude.{[], ◌≡◌, ◌^◌, ◌<◌};
ghost use Rattle.walk.specs.Pieces.{parts, lying, piecewise};
ghost use Rattle.walk.specs.Walk.{seen};
ghost use Rattle.notice_fields.specs.Parts.{moment, angle, latitude_bits, longitude_bits};
ghost use Rattle.notice_fields.specs.PartsSteps.{least_subtype, most_subtype, expiry_read, time_read, latitude_read, longitude_read, expiry_judged, time_judged, latitude_judged, longitude_judged};

use walk::pieces::Pieces;
use walk::walk::Walk;

// The bits of each.
pub const EXPIRY: usize = 21;

pub const LATITUDE: usize = 21;

pub const LONGITUDE: usize = 22;

// A point: its latitude, then its longitude.
pub const POINT: usize = LATITUDE + LONGITUDE;

// An angle's last minute and its last hundredth.
const MINUTES: u64 = 60;

const HUNDREDTHS: u64 = 99;

// ---- the subtypes of a type: from the least to the most

pub fn least_subtype(kind: u64) -> u64
    ensures { result ≡ least_subtype kind }
{
    if most_subtype(kind) == 0 { 0 } else { 1 }
}

pub fn most_subtype(kind: u64) -> u64
    ensures { result ≡ most_subtype kind }
{
    match kind {
        1 => 10,
        4 | 6 => 13,
        5 => 8,
        _ => 0,
    }
}

// ---- the parts, judged one by one: of a number, or of the bits that there are where the message cuts it

// Next-year bit, month, day, hour and minute.
fn moment(g: Pieces) -> Pieces
    ensures { parts result ≡ piecewise moment [] (parts g) }
{
    let day = g.piece(1, 0, 1).piece(4, 1, 12).piece(5, 1, 31);
    day.piece(5, 0, 23).piece(6, 0, 59)
}

// South or west, degrees of d bits and no more than `most`, minutes, hundredths. A refused part is left at once: the rest
// would say nothing more, and so the good way keeps no refusal.
fn angle(g: Pieces, d: usize, most: u64) -> Pieces
    ensures { parts result ≡ piecewise (angle d most) [] (parts g) }
{
    let degrees = g.piece(1, 0, 1).piece(d, 0, most);
    if degrees.verdict.is_err() {
        return degrees;
    }
    let minutes = degrees.piece(6, 0, MINUTES);
    if minutes.verdict.is_err() {
        return minutes;
    }
    minutes.piece(7, 0, HUNDREDTHS)
}

// ---- reading: by its number where it is there, so that the bytes are looked at once

pub fn expiry(s: &[u8], w: Walk) -> Walk
    ensures { (seen result ≡ expiry_read s.now (seen w)) × (result.v < 2 ^ 21) }
{
    let at = w.at;
    if bits::holds(s.len(), at, EXPIRY) {
        return judged_expiry(w, bits::get(s, at, EXPIRY));
    }
    w.group(EXPIRY, 0, cut_moment(s, at).or_zero(EXPIRY))
}

// A time that is known: the expiry's parts, and never all zeros.
pub fn time(s: &[u8], w: Walk) -> Walk
    ensures { (seen result ≡ time_read s.now (seen w)) × (result.v < 2 ^ 21) }
{
    let at = w.at;
    if bits::holds(s.len(), at, EXPIRY) {
        return judged_time(w, bits::get(s, at, EXPIRY));
    }
    w.group(EXPIRY, 0, cut_moment(s, at))
}

pub fn latitude(s: &[u8], w: Walk) -> Walk
    ensures { (seen result ≡ latitude_read s.now (seen w)) × (result.v < 2 ^ latitude_bits) }
{
    let at = w.at;
    if bits::holds(s.len(), at, LATITUDE) {
        return judged_latitude(w, bits::get(s, at, LATITUDE));
    }
    w.group(LATITUDE, 0, cut_angle(s, at, LATITUDE as u32, 7, 90))
}

pub fn longitude(s: &[u8], w: Walk) -> Walk
    ensures { (seen result ≡ longitude_read s.now (seen w)) × (result.v < 2 ^ longitude_bits) }
{
    let at = w.at;
    if bits::holds(s.len(), at, LONGITUDE) {
        return judged_longitude(w, bits::get(s, at, LONGITUDE));
    }
    w.group(LONGITUDE, 0, cut_angle(s, at, LONGITUDE as u32, 8, 180))
}

// A moment that is cut, at bit `at`.
fn cut_moment(s: &[u8], at: usize) -> Pieces
    ensures { parts result ≡ piecewise moment [] (lying s.now at 21) }
{
    moment(Pieces::at(s, at, EXPIRY as u32))
}

// An angle of n bits that is cut, at bit `at`.
fn cut_angle(s: &[u8], at: usize, n: u32, d: usize, most: u64) -> Pieces
    ensures { parts result ≡ piecewise (angle d most) [] (lying s.now at n) }
{
    angle(Pieces::at(s, at, n), d, most)
}

// ---- judging what a record spells

// 0: not known.
pub fn judged_expiry(w: Walk, v: u64) -> Walk
    ensures { seen result ≡ expiry_judged v (seen w) }
{
    let parts = moment(Pieces::of(EXPIRY, v));
    w.group(EXPIRY, v, parts.or_zero(EXPIRY))
}

pub fn judged_time(w: Walk, v: u64) -> Walk
    ensures { seen result ≡ time_judged v (seen w) }
{
    w.group(EXPIRY, v, moment(Pieces::of(EXPIRY, v)))
}

pub fn judged_latitude(w: Walk, v: u64) -> Walk
    ensures { seen result ≡ latitude_judged v (seen w) }
{
    w.group(LATITUDE, v, angle(Pieces::of(LATITUDE, v), 7, 90))
}

pub fn judged_longitude(w: Walk, v: u64) -> Walk
    ensures { seen result ≡ longitude_judged v (seen w) }
{
    w.group(LONGITUDE, v, angle(Pieces::of(LONGITUDE, v), 8, 180))
}
