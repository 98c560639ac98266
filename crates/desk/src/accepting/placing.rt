// A packet into its place at the desk (paper 01, "The desk"): that of its open notice, or a free one; over the lent store.
ghost use Rattle.std.specs.Prelude.{◌≡◌, ◌&&◌, ◌≤◌, ◌<◌, eqb, length};
ghost use Rattle.packet.specs.Packet.{most_packets, part_bytes_of};
ghost use Rattle.places.specs.Places.{held, opened, holding, four_places, place_at, free_at};
ghost use Rattle.places.specs.Desk.{store_bytes, alike, joins, opens};
ghost use Rattle.places.specs.Promises.{Gives};
ghost use Rattle.places.specs.Replies.{turned};

use format::{Reason, Refusal};
use packet::{JOINED, MOST, PART, Packet};
use places::{PLACES, Place, Reply, Turn};

// The packet's notice is open in place `i`.
pub(crate) fn join(
    places: &[Place; PLACES],
    i: usize,
    store: &mut [u8],
    r: Packet,
    content: &[u8],
) -> Result<Turn, Refusal>
    requires { (i < four_places) × (store_bytes ≤ length store.old) × (held (place_at places.now i) r.own ≤ part_bytes_of) × (r.own < most_packets) × (length content.now ≤ part_bytes_of) }
    ensures { Gives (place_at places.now 0) (joins store.old i (place_at places.now i) r content.now) (turned (place_at places.now 0) result) store.new }
{
    let p = &places[i];
    if !agrees(r, p) {
        return Err(Reason::Contradicts.into());
    }
    let own = r.own as usize;
    let size = p.sizes[own] as usize;
    let at = i * JOINED + own * PART;
    if size == 0 {
        places::lay(store, at, content);
        return Ok(Turn {
            at: i,
            place: holding(*p, own, content.len() as u8),
            reply: Reply::Done,
        });
    }
    if same(&store[at..at + size], content) {
        return Ok(Turn::staying(places[0], Reply::Again));
    }
    Err(Reason::Contradicts.into())
}

// Whether the packet has the language and the total of its notice.
fn agrees(r: Packet, p: &Place) -> bool
    ensures { result ≡ (eqb r.language p.now.language && eqb r.total p.now.total) }
{
    r.language == p.language && r.total == p.total
}

// It is not open: it opens the lowest free place.
pub(crate) fn begin(
    places: &[Place; PLACES],
    store: &mut [u8],
    r: Packet,
    content: &[u8],
) -> Result<Turn, Refusal>
    requires { (store_bytes ≤ length store.old) × (r.own < most_packets) × (length content.now ≤ part_bytes_of) }
    ensures { Gives (place_at places.now 0) (opens store.old (free_at places.now) r content.now) (turned (place_at places.now 0) result) store.new }
{
    let Some(i) = places::free_at(places) else {
        return Err(Reason::Taken.into());
    };
    places::lay(store, i * JOINED + r.own as usize * PART, content);
    Ok(Turn {
        at: i,
        place: opened(r, content.len() as u8),
        reply: Reply::Done,
    })
}

// A place opened by a packet of `n` bytes: no other number is held.
fn opened(r: Packet, n: u8) -> Place
    requires { r.own < most_packets }
    ensures { result ≡ opened r n }
{
    let mut sizes: [u8; MOST] = [0; MOST];
    sizes[r.own as usize] = n;
    Place {
        open: true,
        number: r.number,
        language: r.language,
        total: r.total,
        sizes,
    }
}

// The place with `n` bytes of packet number `k`.
fn holding(mut p: Place, k: usize, n: u8) -> Place
    requires { k < most_packets }
    ensures { result ≡ holding p k n }
{
    p.sizes[k] = n;
    p
}

// Whether two runs of bytes are the same. A byte that differs sticks, and nothing leaves the loop early, so that the compiler takes many bytes at once.
fn same(s: &[u8], t: &[u8]) -> bool
    ensures { result ≡ alike s.now t.now }
{
    if s.len() != t.len() {
        return false;
    }
    let mut same = true;
    for (i, x) in s.iter().enumerate() {
        same &= *x == t[i];
    }
    same
}
