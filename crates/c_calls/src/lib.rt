// What C and Rust link of every family but its reading, and but the desk: calls over numbers and lent slices.
#![tactic(auto)]

ghost use Rattle.c_rows.specs.Slots.{SlotsTold};
ghost use Rattle.format.specs.Promises.{Packs};

use format::packed;

pub mod area_calls;
pub mod gljc_calls;
pub mod notice_calls;
pub mod outline_calls;
pub mod packet_calls;
pub mod report_calls;
pub mod sentence_calls;
pub mod tide_calls;
pub mod txhz_calls;
pub mod txsq_calls;
pub mod txxx_calls;
pub mod warning_calls;

// The slots that `message` needs for that many data bytes, into `slots`.
#[unsafe(no_mangle)]
pub extern "C" fn bellnewt_slots(message: u8, bytes: usize, slots: &mut u8) -> u32
    ensures { Packs (λ refusal. SlotsTold message bytes slots.old refusal slots.new) result }
{
    packed(c_rows::slots::slots(message, bytes, slots))
}
