// The frame TXHZ (paper 01, "Serial frames"): a receiver, and the times of up to five messages and of their receipts.
ghost use Rattle.std.specs.Prelude.{◌≡◌, [], ◌<◌};
ghost use Rattle.format.specs.Fmt.{write as Fmt·write};
ghost use Rattle.format.specs.Promises.{Writes};
ghost use Rattle.format.specs.Refusals.{told_of};
ghost use Rattle.walk.specs.Laws.Judging.{Judged};
ghost use Rattle.walk.specs.Walk.{seen};
ghost use Rattle.format.specs.Laws.Putting.{Puts};
ghost use Rattle.txhz.specs.Promises.{Tells};
ghost use Rattle.txhz.specs.Steps.{slot_judged, receipt_judged, receipt_put};
ghost use Rattle.txhz.specs.Txhz.{txhz, txhzs, values_of};

use crate::reading::{LENGTH, LETTERS, MOST, Receipt, Txhz};
use format::Refusal;
use walk::walk::Walk;

// Writes the frame into the front of a lent buffer: the record is judged, then room (6); the bytes past the frame stay.
pub fn write(buf: &mut [u8], r: Txhz) -> Result<(), Refusal>
    ensures { Writes txhzs buf.old (told_of result) buf.new (values_of r) }
{
    let w = judged(r);
    let n = w.bytes(false);
    if w.closes(true, Txhz::LEAST, Txhz::GREATEST, buf.len())
        .is_err()
    {
        return refused(r, buf.len());
    }
    put(buf, r);
    change::sealing::stamp(buf, n);
    Ok(())
}

// What is told of a record that is not written. It is judged once more for that: a good one then carries no bit through its twenty
// receipts' bytes.
fn refused(r: Txhz, room: usize) -> Result<(), Refusal>
    ensures { Tells r room (told_of result) }
{
    judged(r).closes(true, Txhz::LEAST, Txhz::GREATEST, room)
}

// The record names its five receipts: a loop would first make an array of them, and be no plainer. The same holds of `put`.
fn judged(r: Txhz) -> Walk
    ensures { Judged (Fmt·write txhz [] 0 (values_of r)) (seen result) }
{
    let count = r.count;
    let w = frame::judged(LETTERS, LENGTH, r.address as u64);
    let w = w.value(24, r.receiver as u64, 0, frame::ADDRESS);
    let w = w.value(8, count as u64, 0, MOST);
    let w = judge_receipt(w, r.first, 0 < count);
    let w = judge_receipt(w, r.second, 1 < count);
    let w = judge_receipt(w, r.third, 2 < count);
    let w = judge_receipt(w, r.fourth, 3 < count);
    judge_receipt(w, r.fifth, 4 < count)
}

// A receipt, which is kept fill where it is not counted.
fn judge_receipt(w: Walk, t: Receipt, live: bool) -> Walk
    ensures { seen result ≡ receipt_judged live t (seen w) }
{
    let w = judge_slot(w, t.sent_hour, live, frame::HOUR);
    let w = judge_slot(w, t.sent_minute, live, frame::MINUTE);
    let w = judge_slot(w, t.receipt_hour, live, frame::HOUR);
    judge_slot(w, t.receipt_minute, live, frame::MINUTE)
}

// A byte of a receipt.
fn judge_slot(w: Walk, v: u8, live: bool, most: u64) -> Walk
    ensures { seen result ≡ slot_judged live v most (seen w) }
{
    if live {
        return w.value(8, v as u64, 0, most);
    }
    w.fill_value(8, v as u64)
}

fn put(buf: &mut [u8], r: Txhz)
    ensures { Puts txhz (values_of r) buf.old buf.new }
{
    frame::put(buf, LETTERS, LENGTH, r.address as u64);
    bits::put(buf, 80, 24, r.receiver as u64);
    bits::put(buf, 104, 8, r.count as u64);
    put_receipt(buf, 112, r.first);
    put_receipt(buf, 144, r.second);
    put_receipt(buf, 176, r.third);
    put_receipt(buf, 208, r.fourth);
    put_receipt(buf, 240, r.fifth);
}

// A receipt, from bit `at` on, which in this frame is below 256.
fn put_receipt(buf: &mut [u8], at: u8, t: Receipt)
    ensures { buf.new ≡ receipt_put at t buf.old }
{
    let at = at as usize;
    bits::put(buf, at, 8, t.sent_hour as u64);
    bits::put(buf, at + 8, 8, t.sent_minute as u64);
    bits::put(buf, at + 16, 8, t.receipt_hour as u64);
    bits::put(buf, at + 24, 8, t.receipt_minute as u64);
}
