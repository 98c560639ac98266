// The notice telegram (paper 01, "Notice and packet"; 000, 5.2.2): the joined bytes of its packets, read with their language.
ghost use Rattle.std.specs.Prelude.{◌≡◌, ◌≤◌, ◌&&◌, cond, length};
ghost use Rattle.bits.specs.Answers.{spanned};
ghost use Rattle.bits.specs.Bits.{bytes_at};
ghost use Rattle.format.specs.Message.{told, read_message};
ghost use Rattle.format.specs.Refusals.{number, code_of, told_of};
ghost use Rattle.notice.specs.Notice.{ours, notices, sizes};
ghost use Rattle.notice.specs.Promises.{Reads};
ghost use Rattle.notice.specs.Steps.{opening, opening_of, ending, ending_of, unread_by, course, course_of, Gives};
ghost use Rattle.packet.specs.Packet.{joined};
ghost use Rattle.text.specs.Text.{in_language};
ghost use Rattle.walk.specs.Walk.{seen};

use format::{Reason, Refusal};
use walk::walk::Walk;

// The numbers of its areas stand beside the record in a row, one area behind another, and its text in a buffer: both are lent.
#[derive(Clone, Copy)]
pub struct Notice {
    // 1 to 21.
    pub source: u8,
    // 1 to 3.
    pub station: u8,
    // 1 to 9,999.
    pub serial: u16,
    // 0 to 99.
    pub year: u8,
    // Its type, 1 to 8.
    pub kind: u8,
    // By the type.
    pub subtype: u8,
    // What 21 bits spell: next year 1, month 4, day 5, hour 5, minute 6; 0 for not known.
    pub expiry: u32,
    // How many areas, up to 15.
    pub count: u8,
}

// A notice that was read: the record, how many numbers its areas have and how many bytes its text.
#[derive(Clone, Copy)]
pub struct Told {
    pub notice: Notice,
    pub numbers: usize,
    pub text: usize,
}

impl Notice {
    // The bits of the head: all but areas, text and fill.
    pub const BITS: usize = notice_fields::areas::FRONT as usize;

    pub const LEAST: usize = (Notice::BITS + 7) / 8;

    // What the packets of a notice can carry.
    pub const GREATEST: usize = packet::JOINED;
}

// The walk in front of the areas, and what stands there.
#[derive(Clone, Copy)]
pub struct Opening {
    pub walk: Walk,
    pub notice: Notice,
}

// The walk behind the text, and how many bytes it has.
#[derive(Clone, Copy)]
pub struct Ending {
    pub walk: Walk,
    pub text: usize,
}

// The walk over a whole notice, its record, and where its text stands and how many bytes it has.
#[derive(Clone, Copy)]
pub struct Course {
    pub walk: Walk,
    pub notice: Notice,
    pub at: usize,
    pub text: usize,
}

// Reads a notice: its record, the numbers of its areas into the front of the row, its text into the front of the buffer.
pub fn read(s: &[u8], english: bool, areas: &mut [u32], text: &mut [u8]) -> Result<Told, Refusal>
    ensures { Reads (ours english) s.now areas.old text.old result areas.new text.new }
{
    let f = passed_fields(s, 0, english)?;
    let notice = f.notice;
    let n = f.text;
    if text.len() < n {
        return Err(Reason::Room.into());
    }
    // A row that is too short stays as it was.
    let numbers = notice_fields::row::fill(s, notice.count, areas);
    if areas.len() < numbers {
        return Err(Reason::Room.into());
    }
    bits::whole_bytes::get_bytes(s, f.at, n, text);
    Ok(Told {
        notice,
        numbers,
        text: n,
    })
}

// What reading a notice answers, where room is enough: its refusal, if any.
pub fn refusal(s: &[u8], english: bool) -> Result<(), Refusal>
    ensures { told_of result ≡ told (read_message (notices (ours english)) s.now) }
{
    passed_fields(s, 0, english)?;
    Ok(())
}

// The fields that `fields` walked, if none was refused.
pub fn passed_fields(s: &[u8], want: usize, english: bool) -> Result<Course, Refusal>
    ensures { Gives (course_of english want s.now) result }
{
    let f = fields(s, want, english);
    f.walk.passed()?;
    Ok(f)
}

// The size, then the fields in bit order; on the way, field number `want` is found. Of another size nothing is walked. A refused course
// has its record as far as its bits tell, and where the walk was refused.
pub fn fields(s: &[u8], want: usize, english: bool) -> Course
    ensures { course result ≡ course_of english want s.now }
{
    if let Err(reason) = lead(s) {
        return unread(reason);
    }
    let head = head(s, want);
    let notice = head.notice;
    let front = head.walk;
    let areas = notice_fields::areas::walk(s, front, notice.count);
    let ending = close(s, areas, english);
    let walk = ending.walk;
    Course {
        walk,
        notice,
        at: areas.at,
        text: ending.text,
    }
}

// No walk, no record: what the first test refused.
fn unread(reason: Reason) -> Course
    ensures { course result ≡ unread_by (number reason) }
{
    let walk = Walk {
        verdict: Err(reason.into()),
        ..Walk::begin(0)
    };
    let notice = Notice {
        source: 0,
        station: 0,
        serial: 0,
        year: 0,
        kind: 0,
        subtype: 0,
        expiry: 0,
        count: 0,
    };
    Course {
        walk,
        notice,
        at: 0,
        text: 0,
    }
}

// The first test: the size.
fn lead(s: &[u8]) -> Result<(), Reason>
    ensures { code_of result ≡ sizes s.now }
{
    match s.len() {
        Notice::LEAST..=Notice::GREATEST => Ok(()),
        _ => Err(Reason::Size),
    }
}

// Up to the areas.
fn head(s: &[u8], want: usize) -> Opening
    ensures { opening result ≡ opening_of want s.now }
{
    let w = Walk::begin(want).num(s, 5, 1, 21);
    let source = w.v as u8;
    let w = w.num(s, 4, 1, 3);
    let station = w.v as u8;
    let w = w.num(s, 14, 1, 9_999);
    let serial = w.v as u16;
    let w = w.num(s, 7, 0, 99);
    let year = w.v as u8;
    let w = w.num(s, 4, 1, 8);
    let kind = w.v;
    let w = w.num(
        s,
        4,
        notice_fields::parts::least_subtype(kind),
        notice_fields::parts::most_subtype(kind),
    );
    let subtype = w.v as u8;
    let w = notice_fields::parts::expiry(s, w);
    let expiry = w.v as u32;
    let walk = w.decide(s, 4, 0, 15);
    let count = walk.v as u8;
    let notice = Notice {
        source,
        station,
        serial,
        year,
        kind: kind as u8,
        subtype,
        expiry,
        count,
    };
    Opening { walk, notice }
}

// Behind the areas: the text, all whole bytes that are left, and the fill.
fn close(s: &[u8], w: Walk, english: bool) -> Ending
    requires { length s.now ≤ joined }
    ensures { ending result ≡ ending_of english s.now (seen w) }
{
    if w.verdict.is_err() {
        return Ending { walk: w, text: 0 };
    }
    let rest = w.rest(s);
    let text = rest.v as usize;
    let judged = judged_text(s, w.at, text, english);
    // A text is refused at its first bit, whichever byte of it is bad.
    let walk = rest.on(text * 8, false, 0, judged, 0).end(s);
    Ending { walk, text }
}

// What is wrong with the n bytes of text from bit `at` on, if anything.
pub(crate) fn judged_text(s: &[u8], at: usize, n: usize, english: bool) -> Result<(), Reason>
    ensures { code_of result ≡ cond (spanned (length s.now) at n && in_language english (bytes_at s.now at n)) 0 4 }
{
    if text::in_language(s, at, n, english) {
        Ok(())
    } else {
        Err(Reason::Range)
    }
}
