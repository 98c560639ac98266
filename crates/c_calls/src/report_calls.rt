// The distress report: writing and correcting.
ghost use Rattle.c_rows.specs.Report.{record_of};
ghost use Rattle.distress.specs.Report.{reports, values_of};
ghost use Rattle.format.specs.Promises.{Writes, Corrects, Packs};

use distress::Report;
use format::packed;

// Writes the report of these numbers into the front of a lent buffer.
#[unsafe(no_mangle)]
pub extern "C" fn bellnewt_distress_write(
    buf: &mut [u8],
    mmsi: u32,
    longitude: i32,
    latitude: i32,
    day: u8,
    hour: u8,
    minute: u8,
    speed: u8,
    course: u16,
    kind: u8,
) -> u32
    ensures { Packs (λ refusal. Writes reports buf.old refusal buf.new (values_of (record_of mmsi longitude latitude day hour minute speed course kind))) result }
{
    let report = Report {
        mmsi,
        longitude,
        latitude,
        day,
        hour,
        minute,
        speed,
        course,
        kind,
    };
    packed(distress::write(buf, report))
}

// Makes field number `field` of the report be `value`, or leaves every byte.
#[unsafe(no_mangle)]
pub extern "C" fn bellnewt_distress_correct(s: &mut [u8], field: usize, value: u64) -> u32
    ensures { Packs (λ refusal. Corrects reports s.old field value refusal s.new) result }
{
    packed(distress::correct(s, field, value))
}
