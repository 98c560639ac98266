// AIS (paper 01, "AIS"): both messages with their calls, what reading either answers, and how many slots one needs. A crate above takes
// all of it from here; crates.txt names `warning` and `area` beside it there, since the kit asks for the crate that declares a type.
#![tactic(auto)]

ghost use Rattle.std.specs.Prelude.{◌≡◌};
ghost use Rattle.format.specs.Refusals.{told_of};
ghost use Rattle.ais.specs.Ais.{refusal_as, refusal_of};

pub use crate::slot_count::slots;
pub use ais_common::head::SMALLEST;
use format::{Reason, Refusal};

pub mod areas;
pub mod slot_count;
pub mod warnings;

// The refusal of reading a message as the one whose number it has: success for a good one.
pub fn refusal(s: &[u8]) -> Result<(), Refusal>
    ensures { told_of result ≡ refusal_of s.now }
{
    if s.len() < SMALLEST {
        return Err(Reason::Size.into());
    }
    refusal_as(bits::get(s, 0, 6), s)
}

fn refusal_as(message: u64, s: &[u8]) -> Result<(), Refusal>
    ensures { told_of result ≡ refusal_as message s.now }
{
    match message {
        area::MESSAGE => {
            area::read(s)?;
            Ok(())
        },
        warning::MESSAGE => {
            warning::read(s)?;
            Ok(())
        },
        _ => Err(Reason::Kind.into()),
    }
}
