// The packet: writing and correcting; the splitter's calls.
ghost use Rattle.std.specs.Prelude.{◌≡◌};
ghost use Rattle.c_rows.specs.Packet.{record_of};
ghost use Rattle.c_rows.specs.Split.{SplitsIn};
ghost use Rattle.packet.specs.Packet.{packets, values_of};
ghost use Rattle.packet.specs.Splitter.{next_number};
ghost use Rattle.format.specs.Promises.{Writes, Corrects, Packs};

use format::packed;
use packet::Packet;

// Writes the packet of these numbers and content into the front of a lent buffer.
#[unsafe(no_mangle)]
pub extern "C" fn bellnewt_packet_write(
    buf: &mut [u8],
    content: &[u8],
    language: u8,
    number: u8,
    total: u8,
    own: u8,
) -> u32
    ensures { Packs (λ refusal. Writes packets buf.old refusal buf.new (values_of (record_of language number total own, content.now))) result }
{
    let r = Packet {
        language,
        number,
        total,
        own,
    };
    packed(packet::write(buf, r, content))
}

// Makes field number `field` of the packet be `value`, or leaves every byte.
#[unsafe(no_mangle)]
pub extern "C" fn bellnewt_packet_correct(s: &mut [u8], field: usize, value: u64) -> u32
    ensures { Packs (λ refusal. Corrects packets s.old field value refusal s.new) result }
{
    packed(packet::correct(s, field, value))
}

// Writes packet number `packet` of the content into the front of a lent buffer; a language above 1 is 4 before anything else.
#[unsafe(no_mangle)]
pub extern "C" fn bellnewt_split(
    buf: &mut [u8],
    content: &[u8],
    language: u8,
    number: u8,
    packet: usize,
) -> u32
    ensures { Packs (λ refusal. SplitsIn buf.old content.now language number packet refusal buf.new) result }
{
    packed(c_rows::packets::split(buf, content, language, number, packet))
}

// The next message number: after 255 it is 0.
#[unsafe(no_mangle)]
pub extern "C" fn bellnewt_next_number(number: u8) -> u8
    ensures { result ≡ next_number number }
{
    packet::next_number(number)
}
