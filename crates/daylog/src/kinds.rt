// The kinds of a day log's records (paper 01, "Day log listing"): what reading a body answers, and the line that is listed.
ghost use Rattle.std.specs.Prelude.{◌≡◌, ◌≤◌, length};
ghost use Rattle.daylog.specs.Stores.{placed, Stores};
ghost use Rattle.daylog.specs.Kinds.{refusal_of, entry_line};
ghost use Rattle.format.specs.Refusals.{told_of};

use crate::lines::line;
use format::{Reason, Refusal};

// What reading the body answers, by the record's kind.
pub fn refusal(kind: u16, body: &[u8]) -> Result<(), Refusal>
    ensures { told_of result ≡ refusal_of kind body.now }
{
    match kind {
        1 => serial::refusal(body),
        2 => {
            packet::read(body)?;
            Ok(())
        },
        3 => {
            distress::read(body)?;
            Ok(())
        },
        4 => ais::refusal(body),
        _ => Err(Reason::Kind.into()),
    }
}

// A record's line, with its kind's word. Where it has no room, answers the same offset and leaves every byte. No such line
// is longer than 76 bytes.
pub fn entry(out: &mut [u8], at: usize, number: u64, kind: u16, body: &[u8]) -> usize
    ensures { Stores out.old at
        (placed out.old at (entry_line number (record { kind = kind; body = body.now }))) result out.new
        × (length (entry_line number (record { kind = kind; body = body.now })) ≤ 76) }
{
    let told = refusal(kind, body);
    let bytes = body.len() as u64;
    match kind {
        1 => line(out, at, number, b"serial", told, bytes),
        2 => line(out, at, number, b"packet", told, bytes),
        3 => line(out, at, number, b"distress", told, bytes),
        4 => line(out, at, number, b"ais", told, bytes),
        _ => line(out, at, number, b"unknown", told, bytes),
    }
}
