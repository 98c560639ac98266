// A serial frame of any kind (paper 01, "Serial frames"): what reading it answers.
#![tactic(auto)]

ghost use Rattle.std.specs.Prelude.{◌≡◌};
ghost use Rattle.format.specs.Refusals.{told_of};
ghost use Rattle.serial.specs.Serial.{refusal_as, refusal_of};

use format::{Reason, Refusal};

// Whether a frame is read as that of its letters, or its refusal.
pub fn refusal(s: &[u8]) -> Result<(), Refusal>
    ensures { told_of result ≡ refusal_of s.now }
{
    if s.len() < frame::LEAST {
        return Err(Reason::Size.into());
    }
    if bits::get(s, 0, 8) != frame::DOLLAR {
        return Err(Reason::Kind.into());
    }
    refusal_as(bits::get(s, 8, 32), s)
}

fn refusal_as(letters: u64, s: &[u8]) -> Result<(), Refusal>
    ensures { told_of result ≡ refusal_as letters s.now }
{
    match letters {
        gljc::LETTERS => gljc::read(s).map(|_| ()),
        txsq::LETTERS => txsq::read(s).map(|_| ()),
        txxx::LETTERS => txxx::read(s).map(|_| ()),
        txhz::LETTERS => txhz::read(s).map(|_| ()),
        _ => Err(Reason::Kind.into()),
    }
}
