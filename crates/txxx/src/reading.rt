// The frame TXXX (paper 01, "Serial frames"): content from a sender, with the time.
ghost use Rattle.std.specs.Prelude.{◌≡◌, []};
ghost use Rattle.bits.specs.Bits.{bits_of};
ghost use Rattle.format.specs.Fmt.{also, read as Fmt·read};
ghost use Rattle.format.specs.Promises.{out_of, plain};
ghost use Rattle.format.specs.Refusals.{code_of};
ghost use Rattle.txxx.specs.Txxx.{txxx, bounded, record_of};
ghost use Rattle.txxx.specs.Promises.{Reads, Shows};

use format::{Reason, Refusal};

// The content, whole bytes with their unused low bits, stands beside the record: in the frame that was read, or lent to be written.
#[derive(Clone, Copy)]
pub struct Txxx {
    pub address: u32,
    pub class: u8,
    pub sender: u32,
    pub hour: u8,
    pub minute: u8,
    // How many bits the content has.
    pub size: u16,
    // The CRC mark.
    pub mark: u8,
}

impl Txxx {
    // The bits of a frame besides its content.
    pub const BITS: usize = 160;

    pub const LEAST: usize = Txxx::BITS / 8;

    pub const GREATEST: usize = Txxx::LEAST + 210;

    // The bytes of a frame besides its content.
    pub const BARE: u8 = Txxx::LEAST as u8;

    // Where the content begins, and how many bytes follow it: mark and seal.
    pub const CONTENT: usize = 18;

    pub const TAIL: usize = 2;
}

// `TXXX`.
pub const LETTERS: u64 = 0x5458_5858;

pub fn read(s: &[u8]) -> Result<Txxx, Refusal>
    ensures { Reads s.now result }
{
    frame::first(s, LETTERS, Txxx::LEAST, Txxx::GREATEST)?;
    fields(change::sealing::inner(s))
}

// The content, as a part of the frame itself; an empty part where the frame is refused.
pub fn content(frame: &[u8]) -> &[u8]
    ensures { Shows frame.now result.now }
{
    frame::content(frame, read(frame).is_ok(), Txxx::CONTENT, Txxx::TAIL)
}

// The fields in bit order. A refused frame is walked once more for its bit, so that a good one carries none.
pub fn fields(s: &[u8]) -> Result<Txxx, Refusal>
    ensures { out_of result ≡ plain (also (λ r. r.0) (also record_of (Fmt·read txxx [] 0 (bits_of s.now)))) }
{
    let answer = walked(s);
    if answer.is_err() {
        return walked(s);
    }
    answer
}

fn walked(s: &[u8]) -> Result<Txxx, Refusal>
    ensures { out_of result ≡ plain (also (λ r. r.0) (also record_of (Fmt·read txxx [] 0 (bits_of s.now)))) }
{
    let w = frame::head(s, LETTERS, 0, frame::LONGEST);
    let address = w.v as u32;
    let w = w.num(s, 8, 0, 255);
    let class = w.v as u8;
    let w = w.num(s, 24, 0, frame::ADDRESS);
    let sender = w.v as u32;
    let w = w.num(s, 8, 0, frame::HOUR);
    let hour = w.v as u8;
    let w = w.num(s, 8, 0, frame::MINUTE);
    let minute = w.v as u8;
    let judged = limit(bits::get(s, 40, 16), bits::get(s, 128, 16));
    let w = w.given(s, 16, judged);
    let size = w.v as u16;
    let w = w.content(s, size as u32).fill(s, frame::unused_bits(size));
    let w = w.num(s, 8, 0, 255);
    let mark = w.v as u8;
    let w = w.end(s);
    w.passed()?;
    Ok(Txxx {
        address,
        class,
        sender,
        hour,
        minute,
        size,
        mark,
    })
}

// What is wrong with a bit length: the limit (4), then the content's size (1).
pub fn limit(length: u64, size: u64) -> Result<(), Reason>
    ensures { code_of result ≡ bounded length size }
{
    if size > 1_680 {
        return Err(Reason::Range);
    }
    frame::sized(Txxx::BARE, length, size)
}
