// Correcting a field in the message itself.
ghost use Rattle.std.specs.Prelude.{◌≡◌, cond, eqb, List, ℕ, IfOk, OnOk, Ok};
ghost use Rattle.bits.specs.Answers.{got};
ghost use Rattle.format.specs.Correcting.{admitted, put_in, Finishes, InPlace};
ghost use Rattle.format.specs.Message.{body};
ghost use Rattle.format.specs.Refusals.{bare, told_of, Verdict};
ghost use Rattle.walk.specs.Walk.{at_of, width_of};

use crate::sealing::{inner, seal};
use format::{Reason, Refusal};
use walk::walk::Spot;

// How the fields of a kind of message are read anew, in what the layout lays out of it.
pub trait Rereads {
    // What is told of these bytes.
    ghost tells: { Self → List ℕ → Verdict };

    fn reread(&self, s: &[u8]) -> Result<(), Refusal>
        ensures { told_of result ≡ tells self.now s.now };
}

// Makes the field at `spot` be v in a message that was read, `sealed` where its last byte is a seal, and reads its fields anew: where
// these are refused, every byte is put back; else the seal is made anew.
pub fn in_place<R: Rereads>(
    buf: &mut [u8],
    sealed: bool,
    spot: Option<Spot>,
    v: u64,
    fields: &R,
) -> Result<(), Refusal>
    ensures { InPlace sealed (λ t d. d ≡ R.tells fields.now t) (λ d. d) buf.old (at_of spot) (width_of spot) v (told_of result) buf.new }
{
    let spot = admits(spot, v)?;
    let old = bits::get(buf, spot.at, spot.width);
    bits::put(buf, spot.at, spot.width, v);
    let again = fields.reread(laid_out(buf, sealed));
    finish(buf, sealed, spot, old, again)
}

// The field that is corrected to v, before a bit is changed: no field that may be corrected is 10, a value too wide 4.
fn admits(spot: Option<Spot>, v: u64) -> Result<Spot, Refusal>
    ensures answers { told_of result ≡ admitted (bare 0) (at_of spot) (width_of spot) v }
    ensures field { IfOk result (λ x. (x.at ≡ at_of spot) × (x.width ≡ width_of spot)) }
{
    match spot {
        Some(spot) if spot.width > 0 => {
            if spot.width < 64 && v >> spot.width != 0 {
                return Err(Refusal::shown(Reason::Range, spot.at));
            }
            Ok(spot)
        },
        _ => Err(Reason::Field.into()),
    }
}

// What the layout lays out of a message.
fn laid_out(s: &[u8], sealed: bool) -> &[u8]
    ensures { result.now ≡ body sealed s.now }
{
    if sealed { inner(s) } else { s }
}

// Puts the old value back where the changed message was refused, and else makes its seal anew.
fn finish(
    buf: &mut [u8],
    sealed: bool,
    spot: Spot,
    old: u64,
    again: Result<(), Refusal>,
) -> Result<(), Refusal>
    ensures { Finishes sealed (bare 0) spot.at spot.width old (told_of again) buf.old (told_of result) buf.new }
{
    match again {
        Ok(()) => {
            if sealed {
                seal(buf);
            }
            Ok(())
        },
        Err(refusal) => {
            bits::put(buf, spot.at, spot.width, old);
            Err(refusal)
        },
    }
}
