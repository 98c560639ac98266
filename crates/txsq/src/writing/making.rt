// Writing a TXSQ, step by step: its fields judged, then put.
ghost use Rattle.std.specs.Prelude.{[]};
ghost use Rattle.format.specs.Fmt.{write};
ghost use Rattle.walk.specs.Laws.Judging.{Judged};
ghost use Rattle.walk.specs.Walk.{seen};
ghost use Rattle.format.specs.Laws.Putting.{Puts};
ghost use Rattle.txsq.specs.Txsq.{txsq, values_of};

use crate::reading::{CLASS, LETTERS, Txsq, allowed, limit};
use walk::walk::Walk;

pub(crate) fn judged(r: Txsq, content: &[u8]) -> Walk
    ensures { Judged (write txsq [] 0 (values_of (r, content.now))) (seen result) }
{
    let length = frame::declared(Txsq::BARE, content.len());
    let size = r.size as u64;
    let w = frame::judged(LETTERS, length, r.address as u64);
    let w = w.fixed(4, CLASS);
    let w = w.value(2, r.category as u64, 0, 1);
    let w = w.value(1, r.mode as u64, 0, 1);
    let w = w.value(1, r.password as u64, 0, allowed(r.category, 1));
    let w = w.value(24, r.receiver as u64, 0, frame::ADDRESS);
    if w.verdict.is_err() {
        return w;
    }
    let w = w.on(
        16,
        false,
        size,
        limit(r.category, r.mode, r.password, length, size),
        0,
    );
    if w.verdict.is_err() {
        return w;
    }
    let w = w.value(8, r.answer as u64, 0, allowed(r.password, 255));
    let w = w.wide(r.size as usize, Ok(()));
    let spare = frame::unused_bits(r.size);
    w.fill_value(spare, bits::get(content, r.size as usize, spare))
}

pub(crate) fn put(buf: &mut [u8], r: Txsq, content: &[u8])
    ensures { Puts txsq (values_of (r, content.now)) buf.old buf.new }
{
    frame::put(
        buf,
        LETTERS,
        frame::declared(Txsq::BARE, content.len()),
        r.address as u64,
    );
    bits::put(buf, 80, 4, CLASS);
    bits::put(buf, 84, 2, r.category as u64);
    bits::put(buf, 86, 1, r.mode as u64);
    bits::put(buf, 87, 1, r.password as u64);
    bits::put(buf, 88, 24, r.receiver as u64);
    bits::put(buf, 112, 16, r.size as u64);
    bits::put(buf, 128, 8, r.answer as u64);
    bits::whole_bytes::put_bytes(buf, 136, content);
}
