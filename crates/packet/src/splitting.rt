// The splitter (paper 01, "Notice and packet"; 000, 5.1.2): a notice's bytes as packets, one packet a call.
ghost use Rattle.std.specs.Prelude.{◌≡◌, ◌*◌, ◌<◌, ◌≤◌, length};
ghost use Rattle.format.specs.Refusals.{told_of};
ghost use Rattle.packet.specs.Packet.{most_packets, part_bytes_of};
ghost use Rattle.packet.specs.Splitter.{part_of, next_number};
ghost use Rattle.packet.specs.SplittingPromises.{Splits};

use crate::reading::{JOINED, PART, Packet};
use format::{Reason, Refusal};

// Writes packet number `packet` of the content into the front of a lent buffer: the content's size (1), a number past the last packet (4), room (6).
pub fn split(
    buf: &mut [u8],
    content: &[u8],
    english: bool,
    number: u8,
    packet: usize,
) -> Result<(), Refusal>
    ensures { Splits buf.old content.now english number packet (told_of result) buf.new }
{
    let size = content.len();
    if size == 0 || size > JOINED {
        return Err(Reason::Size.into());
    }
    // `div_ceil` is slower: from this the compiler sees a count of 1 to 63, and leaves out the record's tests.
    let count = (size - 1) / PART + 1;
    if packet >= count {
        return Err(Reason::Range.into());
    }
    let r = Packet {
        language: u8::from(english),
        number,
        total: count as u8,
        own: packet as u8,
    };
    crate::writing::write(buf, r, part(content, packet))
}

// The next message number: after 255 it is 0.
pub fn next_number(number: u8) -> u8
    ensures { result ≡ next_number number }
{
    number.wrapping_add(1)
}

// The bytes of that packet: as many as a packet holds, or the rest.
fn part(content: &[u8], packet: usize) -> &[u8]
    requires { (packet < most_packets) × (packet * part_bytes_of ≤ length content.now) }
    ensures { result.now ≡ part_of content.now packet }
{
    let rest = &content[packet * PART..];
    &rest[..PART.min(rest.len())]
}
