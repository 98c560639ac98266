// The frame TXSQ (paper 01, "Serial frames"): content for a receiver.
ghost use Rattle.std.specs.Prelude.{◌≡◌, true, cond, ◌%◌, [], eqb};
ghost use Rattle.bits.specs.Bits.{bits_of};
ghost use Rattle.format.specs.Fmt.{also, read as Fmt·read};
ghost use Rattle.format.specs.Promises.{out_of, plain};
ghost use Rattle.format.specs.Refusals.{code_of};
ghost use Rattle.txsq.specs.Txsq.{txsq, allowed as Txsq·allowed, bounded, record_of};
ghost use Rattle.txsq.specs.Promises.{Reads, Shows};

use format::{Reason, Refusal};

// The content, whole bytes with their unused low bits, stands beside the record: in the frame that was read, or lent to be written.
#[derive(Clone, Copy)]
pub struct Txsq {
    pub address: u32,
    // 0 or 1.
    pub category: u8,
    // 0 text, 1 code.
    pub mode: u8,
    // 1 only in category 1.
    pub password: u8,
    pub receiver: u32,
    // How many bits the content has.
    pub size: u16,
    // 0 without a password.
    pub answer: u8,
}

impl Txsq {
    // The bits of a frame besides its content.
    pub const BITS: usize = 144;

    pub const LEAST: usize = Txsq::BITS / 8;

    pub const GREATEST: usize = Txsq::LEAST + 210;

    // The bytes of a frame besides its content.
    pub const BARE: u8 = Txsq::LEAST as u8;

    // Where the content begins, and the bytes behind it: the seal.
    pub const CONTENT: usize = 17;

    pub const TAIL: usize = 1;
}

// `TXSQ`.
pub const LETTERS: u64 = 0x5458_5351;

// The class begins with 010 and key 0.
pub const CLASS: u64 = 0b0100;

pub fn read(s: &[u8]) -> Result<Txsq, Refusal>
    ensures { Reads s.now result }
{
    frame::first(s, LETTERS, Txsq::LEAST, Txsq::GREATEST)?;
    fields(change::sealing::inner(s))
}

// The content, as a part of the frame itself; an empty part where the frame is refused.
pub fn content(frame: &[u8]) -> &[u8]
    ensures { Shows frame.now result.now }
{
    frame::content(frame, read(frame).is_ok(), Txsq::CONTENT, Txsq::TAIL)
}

// The fields in bit order. A refused frame is walked once more for its bit, so that a good one carries none.
pub fn fields(s: &[u8]) -> Result<Txsq, Refusal>
    ensures { out_of result ≡ plain (also (λ r. r.0) (also record_of (Fmt·read txsq [] 0 (bits_of s.now)))) }
{
    let answer = walked(s);
    if answer.is_err() {
        return walked(s);
    }
    answer
}

fn walked(s: &[u8]) -> Result<Txsq, Refusal>
    ensures { out_of result ≡ plain (also (λ r. r.0) (also record_of (Fmt·read txsq [] 0 (bits_of s.now)))) }
{
    let w = frame::head(s, LETTERS, 0, frame::LONGEST);
    let address = w.v as u32;
    let w = w.code(s, 4, CLASS);
    let w = w.num(s, 2, 0, 1);
    let category = w.v as u8;
    let w = w.num(s, 1, 0, 1);
    let mode = w.v as u8;
    let w = w.num(s, 1, 0, allowed(category, 1));
    let password = w.v as u8;
    let w = w.num(s, 24, 0, frame::ADDRESS);
    let receiver = w.v as u32;
    let judged = limit(
        category,
        mode,
        password,
        bits::get(s, 40, 16),
        bits::get(s, 112, 16),
    );
    let w = w.given(s, 16, judged);
    let size = w.v as u16;
    let w = w.num(s, 8, 0, allowed(password, 255));
    let answer = w.v as u8;
    let w = w
        .content(s, size as u32)
        .fill(s, frame::unused_bits(size))
        .end(s);
    w.passed()?;
    Ok(Txsq {
        address,
        category,
        mode,
        password,
        receiver,
        size,
        answer,
    })
}

// A password needs category 1, and an answer a password: the greatest value, 0 without.
pub fn allowed(with: u8, most: u64) -> u64
    ensures { result ≡ Txsq·allowed with most }
{
    if with == 0 { 0 } else { most }
}

// What is wrong with a bit length: the limits (4), then the content's size (1).
pub fn limit(category: u8, mode: u8, password: u8, length: u64, size: u64) -> Result<(), Reason>
    ensures { code_of result ≡ bounded category mode password length size }
{
    if size > most(category, password) || !whole(mode, size) {
        return Err(Reason::Range);
    }
    frame::sized(Txsq::BARE, length, size)
}

// Text is of whole bytes.
fn whole(mode: u8, size: u64) -> bool
    ensures { result ≡ cond (eqb mode 0) (eqb (size % 8) 0) true }
{
    mode != 0 || size % 8 == 0
}

fn most(category: u8, password: u8) -> u64
    ensures { result ≡ cond (eqb category 0) 188 (cond (eqb password 0) 1_680 83) }
{
    if category == 0 {
        return 188;
    }
    if password == 0 { 1_680 } else { 83 }
}
