// The frame TXHZ as numbers in a lent row. Each call hands on what the family's own call promises.
ghost use Rattle.format.specs.Refusals.{told_of};
ghost use Rattle.std.specs.Prelude.{◌≡◌, ◌+◌, ◌≤◌, length};
ghost use Rattle.c_rows.specs.Row.{Fills, entries};
ghost use Rattle.c_rows.specs.Txhz.{row_of, numbers_of, receipt_at, TxhzWrites};

use format::{Reason, Refusal};
use txhz::{Receipt, Txhz};

// The bytes of five receipts.
const RECEIPTS: usize = 20;

// Reads the frame into a row of 23: address, receiver, count, then each receipt's sent hour, sent minute, receipt hour, receipt minute.
pub fn read(s: &[u8], row: &mut [i64]) -> Result<(), Refusal>
    ensures { Fills (numbers_of s.now) row.old (told_of result) row.new }
{
    let r = txhz::read(s)?;
    crate::fill(row, &numbers(r))
}

// Writes the frame of these numbers and the 20 bytes of its receipts into the front of a lent buffer.
pub fn write(
    buf: &mut [u8],
    receipts: &[u8],
    address: u32,
    receiver: u32,
    count: u8,
) -> Result<(), Refusal>
    ensures { TxhzWrites buf.old receipts.now address receiver count (told_of result) buf.new }
{
    if receipts.len() != RECEIPTS {
        return Err(Reason::Size.into());
    }
    let r = Txhz {
        address,
        receiver,
        count,
        first: receipt(receipts, 0),
        second: receipt(receipts, 4),
        third: receipt(receipts, 8),
        fourth: receipt(receipts, 12),
        fifth: receipt(receipts, 16),
    };
    txhz::write(buf, r)
}

// The receipt whose bytes stand from `at` on.
fn receipt(bytes: &[u8], at: usize) -> Receipt
    requires { at + 4 ≤ length bytes.now }
    ensures { result ≡ receipt_at bytes.now at }
{
    Receipt {
        sent_hour: bytes[at],
        sent_minute: bytes[at + 1],
        receipt_hour: bytes[at + 2],
        receipt_minute: bytes[at + 3],
    }
}

fn numbers(r: Txhz) -> [i64; 23]
    ensures { result ≡ entries (row_of r) }
{
    let a = r.first;
    let b = r.second;
    let c = r.third;
    let d = r.fourth;
    let e = r.fifth;
    [
        r.address as i64,
        r.receiver as i64,
        r.count as i64,
        a.sent_hour as i64,
        a.sent_minute as i64,
        a.receipt_hour as i64,
        a.receipt_minute as i64,
        b.sent_hour as i64,
        b.sent_minute as i64,
        b.receipt_hour as i64,
        b.receipt_minute as i64,
        c.sent_hour as i64,
        c.sent_minute as i64,
        c.receipt_hour as i64,
        c.receipt_minute as i64,
        d.sent_hour as i64,
        d.sent_minute as i64,
        d.receipt_hour as i64,
        d.receipt_minute as i64,
        e.sent_hour as i64,
        e.sent_minute as i64,
        e.receipt_hour as i64,
        e.receipt_minute as i64,
    ]
}
