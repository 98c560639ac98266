// The desk with its places as lent bytes, 67 each: the open mark (0 closed, 1 open), message number, language, total, and a size for each of 63 packets.
#![tactic(auto)]

ghost use Rattle.std.specs.Prelude.{◌≡◌, cond, ◌≤◌, ◌<◌, length};
ghost use Rattle.format.specs.Refusals.{told_of};
ghost use Rattle.places.specs.Desk.{laid};
ghost use Rattle.places.specs.Replies.{said};
ghost use Rattle.places.specs.Places.{four_places};
ghost use Rattle.desk_bytes.specs.Bytes.{begins, total_behind, place_in, row_in, bytes_of};
ghost use Rattle.desk_bytes.specs.Promises.{again_of, count_of, language_of, AcceptsIn, AsksIn, DropsIn};
ghost use Rattle.desk_bytes.specs.Laws.Fits.{moves};

use format::{Reason, Refusal};
use packet::MOST;
use places::{PLACES, Place, Reply, Turn};

// Where a place's sizes begin, and how many bytes it has.
const SIZES: usize = 4;

const PLACE: usize = SIZES + MOST;

// A packet comes in; `again` is 1 where it came before, 0 where it is new.
pub fn accept(
    places: &mut [u8],
    store: &mut [u8],
    packet: &[u8],
    again: &mut u8,
) -> Result<(), Refusal>
    ensures { AcceptsIn places.old store.old packet.now again.old (told_of result) places.new store.new again.new }
{
    if places.len() < PLACES * PLACE {
        return Err(desk::accepting::unplaced(packet));
    }
    let four = row(places);
    let turn = desk::accepting::accept(&four, store, packet)?;
    *again = again_of(turn.reply, *again);
    settle(places, turn);
    turn.reply.told()
}

// A notice is asked for: its bytes into the front of `notice`, or the missing numbers into the front of `missing`, and how many they are into `count`.
pub fn ask(
    places: &mut [u8],
    store: &[u8],
    number: u8,
    notice: &mut [u8],
    missing: &mut [u16],
    count: &mut usize,
    language: &mut u8,
) -> Result<(), Refusal>
    ensures { AsksIn places.old store.now number notice.old missing.old count.old language.old (told_of result) places.new notice.new missing.new count.new language.new }
{
    if places.len() < PLACES * PLACE {
        return Err(Reason::Room.into());
    }
    let four = row(places);
    let turn = desk::asking::ask(&four, store, number, notice, missing)?;
    *count = count_of(turn.reply, *count);
    *language = language_of(turn.reply, *language);
    settle(places, turn);
    turn.reply.told()
}

pub fn drop(places: &mut [u8], store: &[u8], number: u8) -> Result<(), Refusal>
    ensures { DropsIn places.old store.now number (told_of result) places.new }
{
    if places.len() < PLACES * PLACE {
        return Err(Reason::Room.into());
    }
    let four = row(places);
    let turn = desk::asking::drop(&four, store, number)?;
    settle(places, turn);
    turn.reply.told()
}

// ---- places from bytes, and back

// The four places, where there are bytes enough.
fn row(s: &[u8]) -> [Place; PLACES]
    requires { begins four_places ≤ length s.now }
    ensures { result ≡ row_in s.now }
{
    [place(s, 0), place(s, 1), place(s, 2), place(s, 3)]
}

fn place(s: &[u8], i: usize) -> Place
    requires { (i < four_places) × (begins four_places ≤ length s.now) }
    ensures { result ≡ place_in s.now i }
{
    let at = i * PLACE;
    let mark = s[at];
    let mut sizes: [u8; MOST] = [0; MOST];
    sizes.copy_from_slice(&s[at + SIZES..at + PLACE]);
    Place {
        open: mark != 0,
        number: s[at + 1],
        language: s[at + 2],
        total: total_behind(mark, s[at + 3]),
        sizes,
    }
}

// Behind a mark other than 0 and 1 the total is 0, which no open place passes the tests with.
fn total_behind(mark: u8, total: u8) -> u8
    ensures { result ≡ total_behind mark total }
{
    if mark <= 1 { total } else { 0 }
}

// Puts the place that changed back into its bytes.
fn settle(s: &mut [u8], turn: Turn)
    requires { (turn.at < four_places) × (begins four_places ≤ length s.old) }
    ensures { s.new ≡ cond (moves (said turn.reply)) (laid s.old (begins turn.at) (bytes_of turn.place)) s.old }
{
    if moves(turn.reply) {
        put(s, turn.at, turn.place);
    }
}

fn put(s: &mut [u8], i: usize, p: Place)
    requires { (i < four_places) × (begins four_places ≤ length s.old) }
    ensures { s.new ≡ laid s.old (begins i) (bytes_of p) }
{
    let at = i * PLACE;
    s[at] = u8::from(p.open);
    s[at + 1] = p.number;
    s[at + 2] = p.language;
    s[at + 3] = p.total;
    places::lay(s, at + SIZES, &p.sizes);
}

// ---- what a reply says

// Whether a place changed.
fn moves(reply: Reply) -> bool
    ensures { result ≡ moves (said reply) }
{
    matches!(reply, Reply::Done | Reply::Joined(_, _))
}

fn again_of(reply: Reply, before: u8) -> u8
    ensures { result ≡ again_of (said reply) before }
{
    match reply {
        Reply::Done => 0,
        Reply::Again => 1,
        _ => before,
    }
}

fn count_of(reply: Reply, before: usize) -> usize
    ensures { result ≡ count_of (said reply) before }
{
    match reply {
        Reply::Joined(n, _) | Reply::Missing(n) => n,
        _ => before,
    }
}

fn language_of(reply: Reply, before: u8) -> u8
    ensures { result ≡ language_of (said reply) before }
{
    match reply {
        Reply::Joined(_, language) => language,
        _ => before,
    }
}
