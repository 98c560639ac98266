// The distress report as numbers.
ghost use Rattle.format.specs.Refusals.{told_of};
ghost use Rattle.std.specs.Prelude.{◌≡◌, ◌∷◌, pos};
ghost use Rattle.c_rows.specs.Row.{Fills};
ghost use Rattle.c_rows.specs.Report.{row_of, numbers_of};

use distress::Report;
use format::Refusal;

// Reads the report into a row of 9: mmsi, longitude, latitude, day, hour, minute, speed, course, kind.
pub fn read(s: &[u8], row: &mut [i64]) -> Result<(), Refusal>
    ensures { Fills (numbers_of s.now) row.old (told_of result) row.new }
{
    let report = distress::read(s)?;
    crate::fill(row, &numbers(0, report)[1..])
}

// A sentence's numbers in the paper's order: its address, then the report's.
pub(crate) fn numbers(address: u32, r: Report) -> [i64; 10]
    ensures { result ≡ pos address ∷ row_of r }
{
    let longitude = r.longitude;
    let latitude = r.latitude;
    [
        address as i64,
        r.mmsi as i64,
        longitude as i64,
        latitude as i64,
        r.day as i64,
        r.hour as i64,
        r.minute as i64,
        r.speed as i64,
        r.course as i64,
        r.kind as i64,
    ]
}
