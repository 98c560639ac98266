// The times of the papers (paper 01, "AIS": "Times"): month, day, hour and minute in 20 bits, and without the minute in 14.
ghost use Rattle.std.specs.Prelude.{[], ◌≡◌, ◌^◌, ◌<◌};
ghost use Rattle.walk.specs.Pieces.{parts, piecewise};
ghost use Rattle.walk.specs.Walk.{seen};
ghost use Rattle.ais_common.specs.Time.{date_parts, spell_time, time_of, spell_short, short_of};
ghost use Rattle.ais_common.specs.Steps.{time_read, short_read, time_judged, short_judged};

use walk::pieces::Pieces;
use walk::walk::Walk;

// 0 for a month or a day that is not needed.
#[derive(Clone, Copy)]
pub struct Time {
    pub month: u8,
    pub day: u8,
    pub hour: u8,
    pub minute: u8,
}

// The time without its minute. Each of both has functions of its own below: they differ in their parts and definitions, and a trait over
// them, with its laws, would be longer than the four that it saves.
#[derive(Clone, Copy)]
pub struct ShortTime {
    pub month: u8,
    pub day: u8,
    pub hour: u8,
}

impl Time {
    pub const BITS: usize = 20;

    // The number that it spells: 2^20, which is too wide, where a part is too wide for its bits.
    pub fn spelled(self) -> u64
        ensures { result ≡ spell_time self }
    {
        let Time {
            month,
            day,
            hour,
            minute,
        } = self;
        let date = ShortTime { month, day, hour }.spelled();
        if date >= 16_384 || minute >= 64 {
            return 1_048_576;
        }
        date * 64 + u64::from(minute)
    }

    // The time that 20 bits spell.
    pub fn of(v: u64) -> Self
        ensures { result ≡ time_of v }
    {
        let ShortTime { month, day, hour } = ShortTime::of(v / 64);
        let minute = (v % 64) as u8;
        Time {
            month,
            day,
            hour,
            minute,
        }
    }
}

impl ShortTime {
    pub const BITS: usize = 14;

    // The number that it spells: 2^14, which is too wide, where a part is too wide for its bits.
    pub fn spelled(self) -> u64
        ensures { result ≡ spell_short self }
    {
        let ShortTime { month, day, hour } = self;
        if month >= 16 || day >= 32 || hour >= 32 {
            return 16_384;
        }
        u64::from(month) * 1_024 + u64::from(day) * 32 + u64::from(hour)
    }

    // The time that 14 bits spell.
    pub fn of(v: u64) -> Self
        ensures { result ≡ short_of v }
    {
        ShortTime {
            month: (v / 1_024 % 16) as u8,
            day: (v / 32 % 32) as u8,
            hour: (v % 32) as u8,
        }
    }
}

// ---- reading: a time's parts are judged one by one, and it is corrected as one number. Whoever reads it has tested the
// message's size: it is there, and its number says all of its parts. Past the end the number is 0.

pub fn read(s: &[u8], w: Walk) -> Walk
    ensures { (seen result ≡ time_read s.now (seen w)) × (result.v < 2 ^ 20) }
{
    let at = w.at;
    judged(w, bits::get(s, at, Time::BITS))
}

pub fn read_short(s: &[u8], w: Walk) -> Walk
    ensures { (seen result ≡ short_read s.now (seen w)) × (result.v < 2 ^ 14) }
{
    let at = w.at;
    judged_short(w, bits::get(s, at, ShortTime::BITS))
}

// ---- judging what a record spells

pub fn judged(w: Walk, v: u64) -> Walk
    ensures { seen result ≡ time_judged v (seen w) }
{
    let g = judged_date(Pieces::of(Time::BITS, v));
    w.group(Time::BITS, v, g.piece(6, 0, 59))
}

pub fn judged_short(w: Walk, v: u64) -> Walk
    ensures { seen result ≡ short_judged v (seen w) }
{
    let g = judged_date(Pieces::of(ShortTime::BITS, v));
    w.group(ShortTime::BITS, v, g)
}

fn judged_date(g: Pieces) -> Pieces
    ensures { parts result ≡ piecewise (date_parts []) [] (parts g) }
{
    g.piece(4, 0, 12).piece(5, 0, 31).piece(5, 0, 23)
}
