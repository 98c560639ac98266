// The packet (paper 01, "Notice and packet"; 000, 5.2.2.2): a part of a notice, with its head.
ghost use Rattle.std.specs.Prelude.{◌≡◌, ◌-◌};
ghost use Rattle.format.specs.Fmt.{also};
ghost use Rattle.format.specs.Promises.{out_of};
ghost use Rattle.format.specs.Refusals.{code_of};
ghost use Rattle.format.specs.Message.{fields_of};
ghost use Rattle.packet.specs.Packet.{greatest, packet, packets, record_of, answer_of};
ghost use Rattle.packet.specs.Promises.{Reads, Shows};

use format::{Reason, Refusal};

// The content stands beside the record: in the packet that was read, or lent to be written.
#[derive(Clone, Copy)]
pub struct Packet {
    // 0 Chinese, 1 English.
    pub language: u8,
    // Of the notice.
    pub number: u8,
    // How many packets the notice has.
    pub total: u8,
    // This packet's number among them, from 0.
    pub own: u8,
}

impl Packet {
    // The bits of the head.
    pub const BITS: usize = 32;

    // Where the content begins.
    pub const CONTENT: usize = Packet::BITS / 8;

    pub const LEAST: usize = Packet::CONTENT + 1;

    pub const GREATEST: usize = Packet::CONTENT + PART;
}

pub const CODE: u64 = 0xE1;

pub const VERSION: u64 = 1;

// The greatest total, the most bytes of content in a packet, and so in a whole notice.
pub const MOST: usize = 63;

pub const PART: usize = 206;

pub const JOINED: usize = MOST * PART;

pub fn read(s: &[u8]) -> Result<Packet, Refusal>
    ensures { Reads s.now result }
{
    lead(s)?;
    fields(s)
}

// The content, as a part of the packet itself; an empty part where the packet is refused.
pub fn content(s: &[u8]) -> &[u8]
    ensures { Shows s.now result.now }
{
    match read(s) {
        Ok(_) => &s[Packet::CONTENT..],
        Err(_) => &s[..0],
    }
}

// The first tests: smallest size, code and version, greatest size.
pub fn lead(s: &[u8]) -> Result<(), Reason>
    ensures { code_of result ≡ packets.lead s.now }
{
    let size = s.len();
    if size < Packet::LEAST {
        return Err(Reason::Size);
    }
    if bits::get(s, 0, 8) != CODE || bits::get(s, 8, 3) != VERSION {
        return Err(Reason::Kind);
    }
    if size > Packet::GREATEST {
        return Err(Reason::Size);
    }
    Ok(())
}

// The fields in bit order. Another size is refused at once: no field has then to be tested for it.
pub fn fields(s: &[u8]) -> Result<Packet, Refusal>
    ensures { out_of result ≡ answer_of (also record_of (fields_of packet 5 greatest s.now)) }
{
    if s.len() < Packet::LEAST || s.len() > Packet::GREATEST {
        return Err(Reason::Size.into());
    }
    let content = (s.len() - Packet::CONTENT) as u32 * 8;
    let w = walk::walk::Walk::begin(0)
        .code(s, 8, CODE)
        .code(s, 3, VERSION);
    let w = w.num(s, 1, 0, 1);
    let language = w.v as u8;
    let w = w.num(s, 8, 0, 255);
    let number = w.v as u8;
    let w = w.num(s, 6, 1, MOST as u64);
    let total = w.v as u8;
    let w = w.num(s, 6, 0, last_number(total));
    let own = w.v as u8;
    w.passed()?;
    let w = w.rest(s).content(s, content).end(s);
    w.passed()?;
    Ok(Packet {
        language,
        number,
        total,
        own,
    })
}

// The greatest own number of so many packets.
pub fn last_number(total: u8) -> u64
    ensures { result ≡ total - 1 }
{
    u64::from(total).saturating_sub(1)
}
