// The packet as numbers in a lent row, and the splitter with its language as a number.
ghost use Rattle.format.specs.Refusals.{told_of};
ghost use Rattle.std.specs.Prelude.{◌≡◌, ◌≤◌};
ghost use Rattle.c_rows.specs.Row.{Fills, entries};
ghost use Rattle.packet.specs.Packet.{part_bytes_of};
ghost use Rattle.c_rows.specs.Packet.{row_of, numbers_of};
ghost use Rattle.c_rows.specs.Split.{SplitsIn};

use format::{Reason, Refusal};
use packet::Packet;

// The greatest number of a language.
const ENGLISH: u8 = 1;

// Reads the packet into a row of 6: language, number, total, own, where the content begins and its bytes.
pub fn read(s: &[u8], row: &mut [i64]) -> Result<(), Refusal>
    ensures { Fills (numbers_of s.now) row.old (told_of result) row.new }
{
    let r = packet::read(s)?;
    crate::fill(row, &numbers(r, s.len() - Packet::CONTENT))
}

// Splits for a language that is 0 or 1; another is 4 before anything else.
pub fn split(
    buf: &mut [u8],
    content: &[u8],
    language: u8,
    number: u8,
    packet: usize,
) -> Result<(), Refusal>
    ensures { SplitsIn buf.old content.now language number packet (told_of result) buf.new }
{
    if language > ENGLISH {
        return Err(Reason::Range.into());
    }
    packet::split(buf, content, language == ENGLISH, number, packet)
}

fn numbers(r: Packet, bytes: usize) -> [i64; 6]
    requires { bytes ≤ part_bytes_of }
    ensures { result ≡ entries (row_of r bytes) }
{
    [
        r.language as i64,
        r.number as i64,
        r.total as i64,
        r.own as i64,
        Packet::CONTENT as i64,
        bytes as i64,
    ]
}
