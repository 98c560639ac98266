// A point's angles as signed numbers (paper 01, "Notice and packet"): in hundredths of a minute, south and west negative.
ghost use Rattle.std.specs.Prelude.{◌≡◌, ◌<◌};
ghost use Rattle.outline.specs.Angles.{hundredths, turned, northing, easting};

// A latitude in hundredths of a minute, by the number that its bits spell: negative in the south.
pub fn latitude_of(v: u64) -> i32
    ensures { result ≡ northing v }
{
    angle(v / 0x10_0000 % 2, v / 8_192 % 128, v)
}

// A longitude: negative in the west.
pub fn longitude_of(v: u64) -> i32
    ensures { result ≡ easting v }
{
    angle(v / 0x20_0000 % 2, v / 8_192 % 256, v)
}

// Degrees, and the minutes and hundredths that v ends in; negative where the sign is 1.
fn angle(sign: u64, degrees: u64, v: u64) -> i32
    requires { degrees < 256 }
    ensures { result ≡ turned sign (hundredths degrees v) }
{
    let size = ((degrees * 60 + v / 128 % 64) * 100 + v % 128) as i32;
    if sign == 0 {
        return size;
    }
    -size
}
