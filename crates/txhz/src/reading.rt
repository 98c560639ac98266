// The frame TXHZ (paper 01, "Serial frames"): a receiver, and the times of up to five messages and of their receipts.
ghost use Rattle.std.specs.Prelude.{◌≡◌, cond, ◌<◌, ◌^◌};
ghost use Rattle.format.specs.Fmt.{also};
ghost use Rattle.format.specs.Promises.{out_of, plain};
ghost use Rattle.format.specs.Refusals.{number};
ghost use Rattle.format.specs.Message.{fields_of};
ghost use Rattle.txhz.specs.Promises.{Reads};
ghost use Rattle.txhz.specs.Steps.{slot_read_of, receipt_read, passed};
ghost use Rattle.walk.specs.Walk.{seen};
ghost use Rattle.txhz.specs.Txhz.{txhz, record_of};

use format::{Reason, Refusal};
use walk::faults::range;
use walk::walk::Walk;

#[derive(Clone, Copy)]
pub struct Receipt {
    pub sent_hour: u8,
    pub sent_minute: u8,
    pub receipt_hour: u8,
    pub receipt_minute: u8,
}

// All five receipts, those past the count too. By name, as C has them: an array would be taken apart again where it is read and written.
#[derive(Clone, Copy)]
pub struct Txhz {
    pub address: u32,
    pub receiver: u32,
    pub count: u8,
    pub first: Receipt,
    pub second: Receipt,
    pub third: Receipt,
    pub fourth: Receipt,
    pub fifth: Receipt,
}

impl Txhz {
    pub const BITS: usize = 280;

    pub const LEAST: usize = Txhz::BITS / 8;

    pub const GREATEST: usize = Txhz::BITS / 8;
}

// `TXHZ`.
pub const LETTERS: u64 = 0x5458_485A;

pub const LENGTH: u64 = Txhz::LEAST as u64;

// The bytes that the seal is made of.
const SEALED: usize = Txhz::LEAST - 1;

// How many receipts the frame has room for.
pub const MOST: u64 = 5;

pub fn read(s: &[u8]) -> Result<Txhz, Refusal>
    ensures { Reads s.now result }
{
    frame::first(s, LETTERS, Txhz::LEAST, Txhz::GREATEST)?;
    fields(change::sealing::inner(s))
}

// ---- reading

// The fields in bit order. A refused frame is walked once more for its bit, so that a good one carries none.
pub fn fields(s: &[u8]) -> Result<Txhz, Refusal>
    ensures { out_of result ≡ plain (also record_of (fields_of txhz 34 34 s.now)) }
{
    let answer = walked(s);
    if answer.is_err() {
        return walked(s);
    }
    answer
}

// Another size is refused at once: no field has then to be tested for it. The record names its five receipts, as C does, so a loop over
// an array of them would be no plainer: it would take the array apart again.
fn walked(s: &[u8]) -> Result<Txhz, Refusal>
    ensures { out_of result ≡ plain (also record_of (fields_of txhz 34 34 s.now)) }
{
    if s.len() != SEALED {
        return Err(Reason::Size.into());
    }
    let w = frame::head(s, LETTERS, LENGTH, LENGTH);
    let address = w.v as u32;
    let w = w.num(s, 24, 0, frame::ADDRESS);
    let receiver = w.v as u32;
    let w = w.num(s, 8, 0, MOST);
    let count = w.v as u8;
    let passed = read_receipt(w, s, 0 < count);
    let first = passed.receipt;
    let passed = read_receipt(passed.walk, s, 1 < count);
    let second = passed.receipt;
    let passed = read_receipt(passed.walk, s, 2 < count);
    let third = passed.receipt;
    let passed = read_receipt(passed.walk, s, 3 < count);
    let fourth = passed.receipt;
    let passed = read_receipt(passed.walk, s, 4 < count);
    let fifth = passed.receipt;
    let w = passed.walk.end(s);
    w.passed()?;
    Ok(Txhz {
        address,
        receiver,
        count,
        first,
        second,
        third,
        fourth,
        fifth,
    })
}

// A receipt, and the walk past it.
#[derive(Clone, Copy)]
struct Passed {
    walk: Walk,
    receipt: Receipt,
}

// A receipt, which is fill where it is not counted.
fn read_receipt(w: Walk, s: &[u8], live: bool) -> Passed
    ensures { passed result ≡ receipt_read s.now live (seen w) }
{
    let w = read_slot(w, s, live, frame::HOUR);
    let sent_hour = w.v as u8;
    let w = read_slot(w, s, live, frame::MINUTE);
    let sent_minute = w.v as u8;
    let w = read_slot(w, s, live, frame::HOUR);
    let receipt_hour = w.v as u8;
    let w = read_slot(w, s, live, frame::MINUTE);
    let receipt_minute = w.v as u8;
    let receipt = Receipt {
        sent_hour,
        sent_minute,
        receipt_hour,
        receipt_minute,
    };
    Passed { walk: w, receipt }
}

// A byte of a receipt: that which the walk's bit lies in. Receipts stand at whole bytes, and so the compiler knows it.
fn read_slot(w: Walk, s: &[u8], live: bool, most: u64) -> Walk
    ensures { (seen result ≡ slot_read_of s.now live most (seen w)) × (result.v < 2 ^ 8) }
{
    let at = w.at / 8 * 8;
    let wrong = range(s, at, 8, 0, top(live, most), fault(live));
    w.on(8, live, bits::get(s, at, 8), wrong, 0)
}

fn top(live: bool, most: u64) -> u64
    ensures { result ≡ cond live most 0 }
{
    if live { most } else { 0 }
}

fn fault(live: bool) -> Reason
    ensures { number result ≡ cond live 4 5 }
{
    if live { Reason::Range } else { Reason::Fill }
}
