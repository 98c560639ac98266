// Writing a TXXX, step by step: its fields judged, then put.
ghost use Rattle.std.specs.Prelude.{[]};
ghost use Rattle.format.specs.Fmt.{write};
ghost use Rattle.walk.specs.Laws.Judging.{Judged};
ghost use Rattle.walk.specs.Walk.{seen};
ghost use Rattle.format.specs.Laws.Putting.{Puts};
ghost use Rattle.txxx.specs.Txxx.{txxx, values_of};

use crate::reading::{LETTERS, Txxx, limit};
use walk::walk::Walk;

pub(crate) fn judged(r: Txxx, content: &[u8]) -> Walk
    ensures { Judged (write txxx [] 0 (values_of (r, content.now))) (seen result) }
{
    let length = frame::declared(Txxx::BARE, content.len());
    let size = r.size as u64;
    let w = frame::judged(LETTERS, length, r.address as u64);
    let w = w.value(8, r.class as u64, 0, 255);
    let w = w.value(24, r.sender as u64, 0, frame::ADDRESS);
    let w = w.value(8, r.hour as u64, 0, frame::HOUR);
    let w = w.value(8, r.minute as u64, 0, frame::MINUTE);
    if w.verdict.is_err() {
        return w;
    }
    let w = w.on(16, false, size, limit(length, size), 0);
    if w.verdict.is_err() {
        return w;
    }
    let w = w.wide(r.size as usize, Ok(()));
    let spare = frame::unused_bits(r.size);
    let w = w.fill_value(spare, bits::get(content, r.size as usize, spare));
    w.value(8, r.mark as u64, 0, 255)
}

pub(crate) fn put(buf: &mut [u8], r: Txxx, content: &[u8])
    ensures { Puts txxx (values_of (r, content.now)) buf.old buf.new }
{
    frame::put(
        buf,
        LETTERS,
        frame::declared(Txxx::BARE, content.len()),
        r.address as u64,
    );
    bits::put(buf, 80, 8, r.class as u64);
    bits::put(buf, 88, 24, r.sender as u64);
    bits::put(buf, 112, 8, r.hour as u64);
    bits::put(buf, 120, 8, r.minute as u64);
    bits::put(buf, 128, 16, r.size as u64);
    bits::whole_bytes::put_bytes(buf, 144, content);
    let size = r.size as usize;
    bits::put(buf, 144 + (size + 7) / 8 * 8, 8, r.mark as u64);
}
