// Writing a packet, step by step: its head judged, then head and content put.
ghost use Rattle.std.specs.Prelude.{ℕ, ◌*◌, List, [], length};
ghost use Rattle.format.specs.Fmt.{write};
ghost use Rattle.format.specs.Laws.Putting.{Puts};
ghost use Rattle.walk.specs.Judging.{beyond};
ghost use Rattle.walk.specs.Laws.Judging.{Judged};
ghost use Rattle.walk.specs.Walk.{seen};
ghost use Rattle.packet.specs.Packet.{packet, values_of};

use crate::reading::{CODE, MOST, Packet, VERSION, last_number};

// The head's values judged in bit order, whatever content follows.
pub(crate) fn judged(r: Packet) -> walk::walk::Walk
    ensures { (c : List ℕ) → Judged (write packet [] 0 (values_of (r, c))) (beyond (length c * 8) 0 (seen result)) }
{
    let w = walk::walk::Walk::begin(0);
    let w = w.fixed(8, CODE);
    let w = w.fixed(3, VERSION);
    let w = w.value(1, r.language as u64, 0, 1);
    let w = w.value(8, r.number as u64, 0, 255);
    let w = w.value(6, r.total as u64, 1, MOST as u64);
    w.value(6, r.own as u64, 0, last_number(r.total))
}

pub(crate) fn put(buf: &mut [u8], r: Packet, content: &[u8])
    ensures { Puts packet (values_of (r, content.now)) buf.old buf.new }
{
    bits::put(buf, 0, 8, CODE);
    bits::put(buf, 8, 3, VERSION);
    bits::put(buf, 11, 1, r.language as u64);
    bits::put(buf, 12, 8, r.number as u64);
    bits::put(buf, 20, 6, r.total as u64);
    bits::put(buf, 26, 6, r.own as u64);
    bits::whole_bytes::put_bytes(buf, Packet::BITS, content);
}
