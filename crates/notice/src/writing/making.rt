// Writing a notice, step by step: its values judged, then put.
ghost use Rattle.std.specs.Prelude.{◌≤◌, length};
ghost use Rattle.packet.specs.Packet.{joined};
ghost use Rattle.notice.specs.Making.{HeadJudged, NoticeJudged, HeadPut, NoticePut};
ghost use Rattle.walk.specs.Walk.{seen, stepped};

use crate::reading::{Notice, judged_text};
use walk::making::Stepped;
use walk::walk::Walk;

// The values in bit order, the text by itself, and how many numbers of the row were asked for.
pub(crate) fn judged(r: Notice, areas: &[u32], text: &[u8], english: bool) -> Stepped
    ensures { NoticeJudged english r areas.now text.now (stepped result) }
{
    let head = judged_head(r);
    if head.verdict.is_err() {
        return Stepped {
            walk: head,
            next: 0,
        };
    }
    let all = notice_fields::making::judge(areas, r.count);
    let next = all.next;
    let behind = all.walk;
    let walk = behind.wide(0, judged_text(text, 0, text.len(), english));
    Stepped { walk, next }
}

// Up to the areas.
fn judged_head(r: Notice) -> Walk
    ensures { HeadJudged r (seen result) }
{
    let kind = r.kind as u64;
    let w = Walk::begin(0).value(5, r.source as u64, 1, 21);
    let w = w.value(4, r.station as u64, 1, 3);
    let w = w.value(14, r.serial as u64, 1, 9_999);
    let w = w.value(7, r.year as u64, 0, 99);
    let w = w.value(4, kind, 1, 8);
    let w = w.value(
        4,
        r.subtype as u64,
        notice_fields::parts::least_subtype(kind),
        notice_fields::parts::most_subtype(kind),
    );
    let w = notice_fields::parts::judged_expiry(w, r.expiry as u64);
    w.value(4, r.count as u64, 0, 15)
}

pub(crate) fn put(buf: &mut [u8], r: Notice, areas: &[u32], text: &[u8])
    requires { (r.count ≤ 15) × (length text.now ≤ joined) }
    ensures { NoticePut r areas.now text.now buf.old buf.new }
{
    put_head(buf, r);
    let at = notice_fields::making::put(buf, areas, r.count);
    bits::whole_bytes::put_bytes(buf, at, text);
    change::putting::fill(buf, at + text.len() * 8);
}

fn put_head(buf: &mut [u8], r: Notice)
    ensures { HeadPut r buf.old buf.new }
{
    bits::put(buf, 0, 5, r.source as u64);
    bits::put(buf, 5, 4, r.station as u64);
    bits::put(buf, 9, 14, r.serial as u64);
    bits::put(buf, 23, 7, r.year as u64);
    bits::put(buf, 30, 4, r.kind as u64);
    bits::put(buf, 34, 4, r.subtype as u64);
    bits::put(buf, 38, 21, r.expiry as u64);
    bits::put(buf, 59, 4, r.count as u64);
}
