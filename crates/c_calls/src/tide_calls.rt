// The tide telegram: writing, correcting, and its heights.
ghost use Rattle.c_rows.specs.Tide.{HeightsTold, record_of};
ghost use Rattle.tide.specs.Tide.{tides};
ghost use Rattle.tide.specs.WritingPromises.{TideWrites};
ghost use Rattle.format.specs.Promises.{Corrects, Packs};

use format::packed;
use tide::Tide;

// Writes the telegram of `count` records, whose numbers are in the row, into the front of a lent buffer.
#[unsafe(no_mangle)]
pub extern "C" fn bellnewt_tide_write(buf: &mut [u8], count: u16, row: &[u32]) -> u32
    ensures { Packs (λ refusal. TideWrites buf.old (record_of count) row.now refusal buf.new) result }
{
    let r = Tide { count };
    packed(tide::write(buf, r, row))
}

// Makes field number `field` of the telegram be `value`, or leaves every byte.
#[unsafe(no_mangle)]
pub extern "C" fn bellnewt_tide_correct(s: &mut [u8], field: usize, value: u64) -> u32
    ensures { Packs (λ refusal. Corrects tides s.old field value refusal s.new) result }
{
    packed(tide::correct(s, field, value))
}

// The levels of the telegram into the front of the row, in centimetres, and how many they are into `count`.
#[unsafe(no_mangle)]
pub extern "C" fn bellnewt_tide_heights(s: &[u8], heights: &mut [i32], count: &mut usize) -> u32
    ensures { Packs (λ refusal. HeightsTold s.now heights.old count.old refusal heights.new count.new) result }
{
    packed(c_rows::tides::heights(s, heights, count))
}
