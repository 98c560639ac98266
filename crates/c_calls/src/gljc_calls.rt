// The frame GLJC: writing and correcting.
ghost use Rattle.c_rows.specs.Gljc.{record_of};
ghost use Rattle.gljc.specs.Gljc.{gljcs, values_of};
ghost use Rattle.format.specs.Promises.{Writes, Corrects, Packs};

use format::packed;
use gljc::Gljc;

// Writes the frame of these numbers into the front of a lent buffer.
#[unsafe(no_mangle)]
pub extern "C" fn bellnewt_gljc_write(buf: &mut [u8], address: u32, minutes: u8) -> u32
    ensures { Packs (λ refusal. Writes gljcs buf.old refusal buf.new (values_of (record_of address minutes))) result }
{
    let r = Gljc { address, minutes };
    packed(gljc::write(buf, r))
}

// Makes field number `field` of the frame be `value`, or leaves every byte.
#[unsafe(no_mangle)]
pub extern "C" fn bellnewt_gljc_correct(s: &mut [u8], field: usize, value: u64) -> u32
    ensures { Packs (λ refusal. Corrects gljcs s.old field value refusal s.new) result }
{
    packed(gljc::correct(s, field, value))
}
