// The distress report (paper 01, "Distress report"; 001, A.1).
ghost use Rattle.std.specs.Prelude.{◌≡◌};
ghost use Rattle.distress.specs.Report.{reports, report, report_of};
ghost use Rattle.distress.specs.Promises.{Reads};
ghost use Rattle.format.specs.Fmt.{also};
ghost use Rattle.format.specs.Promises.{out_of, plain};
ghost use Rattle.format.specs.Refusals.{code_of};
ghost use Rattle.format.specs.Message.{fields_of};

use format::{Reason, Refusal};

#[derive(Clone, Copy)]
pub struct Report {
    pub mmsi: u32,
    // Thousandths of a minute, 10,860,000 and 5,460,000 for none.
    pub longitude: i32,
    pub latitude: i32,
    // 0, 24 and 60 for none.
    pub day: u8,
    pub hour: u8,
    pub minute: u8,
    pub speed: u8,
    // 360 for none.
    pub course: u16,
    // 0 for none.
    pub kind: u8,
}

impl Report {
    pub const BITS: usize = 136;

    pub const LEAST: usize = Report::BITS / 8;

    pub const GREATEST: usize = Report::BITS / 8;
}

pub const CODE: u64 = 0xBDC1;

pub fn read(s: &[u8]) -> Result<Report, Refusal>
    ensures { Reads s.now result }
{
    lead(s)?;
    fields(s)
}

// The first tests: smallest size, code, size.
pub fn lead(s: &[u8]) -> Result<(), Reason>
    ensures { code_of result ≡ reports.lead s.now }
{
    if s.len() < Report::LEAST {
        return Err(Reason::Size);
    }
    if bits::get(s, 0, 16) != CODE {
        return Err(Reason::Kind);
    }
    if s.len() > Report::GREATEST {
        return Err(Reason::Size);
    }
    Ok(())
}

// The fields in bit order. A refused report is walked once more for its bit, so that a good one carries none.
pub fn fields(s: &[u8]) -> Result<Report, Refusal>
    ensures { out_of result ≡ plain (also report_of (fields_of report 17 17 s.now)) }
{
    let answer = walked(s);
    if answer.is_err() {
        return walked(s);
    }
    answer
}

// Another size is refused at once: no field has then to be tested for it.
fn walked(s: &[u8]) -> Result<Report, Refusal>
    ensures { out_of result ≡ plain (also report_of (fields_of report 17 17 s.now)) }
{
    if s.len() != Report::LEAST {
        return Err(Reason::Size.into());
    }
    let w = walk::walk::Walk::begin(0).code(s, 16, CODE);
    let w = w.num(s, 32, 0, 999_999_999);
    let mmsi = w.v as u32;
    let w = w.signed(s, 25, 10_800_000, 22_754_432, 10_860_000);
    let longitude = walk::sign::int(w.v, 33_554_432);
    let w = w.signed(s, 24, 5_400_000, 11_377_216, 5_460_000);
    let latitude = walk::sign::int(w.v, 16_777_216);
    let w = w.num(s, 5, 0, 31);
    let day = w.v as u8;
    let w = w.num(s, 5, 0, 24);
    let hour = w.v as u8;
    let w = w.num(s, 6, 0, 60);
    let minute = w.v as u8;
    let w = w.num(s, 7, 0, 126);
    let speed = w.v as u8;
    let w = w.num(s, 9, 0, 360);
    let course = w.v as u16;
    let w = w.num(s, 4, 0, 9);
    let kind = w.v as u8;
    let w = w.fill(s, 3).end(s);
    w.passed()?;
    Ok(Report {
        mmsi,
        longitude,
        latitude,
        day,
        hour,
        minute,
        speed,
        course,
        kind,
    })
}
