// A program that lists a log, turn by turn: the heading first; then, as often as it has read, what it lists, what it keeps,
// and whether it reads on. The program itself only carries the bytes.
ghost use Rattle.std.specs.Prelude.{◌≡◌, ℕ, ◌+◌, ◌<◌, ◌≤◌, List, length, take, drop, is_some, true};
ghost use Rattle.format.specs.Refusals.{code_of};
ghost use Rattle.daylog.specs.Records.{front};
ghost use Rattle.daylog.specs.Turns.{Begins, Turns, Gives, seen, counted_of, stopped, on as Turns·on, ending as Turns·ending, counting, keeping, listing_of, is_bad};

use crate::lines::has_room;
use crate::records::{Next, first};
use crate::{ending, heading, keep, list};
use format::Reason;

// What the program does next: it writes the first `made` bytes of the text. Where the listing has not ended then, it reads behind
// the bytes that wait at the front of the input, and takes the next turn.
#[derive(Clone, Copy)]
pub struct State {
    pub made: usize,
    // How the listing has ended.
    pub ended: Option<Result<(), Reason>>,
    // The next record's number.
    pub number: u64,
    // How many bytes wait at the front of the input.
    pub waiting: usize,
    // A broken record has begun: the bytes that come are only counted, and so many were.
    pub broken: Option<u64>,
}

// The first turn: the heading.
pub fn begin(text: &mut [u8]) -> State
    ensures { Begins text.old (seen result) text.new }
{
    match heading(text) {
        Ok(made) => on(made, 1, 0, None),
        Err(reason) => stop(on(0, 1, 0, None), Err(reason), 0),
    }
}

// A turn after `got` bytes were read. None are read at the end of the log, or where the input has no room for any (6).
pub fn turn(t: State, input: &mut [u8], got: usize, text: &mut [u8]) -> State
    ensures { Turns (seen t) input.old got text.old (seen result) input.new text.new }
{
    if let Some(verdict) = t.ended {
        return stop(t, verdict, 0);
    }
    if let Some(left) = t.broken {
        return count(t, left, input.len(), got, text);
    }
    if !has_room(input.len(), t.waiting, got) {
        return stop(t, Err(Reason::Room), 0);
    }
    window(t, input, got, text)
}

// Lists the bytes that wait and those that were read behind them. Where that is no whole record and none were read, the log
// has ended.
fn window(t: State, input: &mut [u8], got: usize, text: &mut [u8]) -> State
    requires { t.waiting + got ≤ length input.old }
    ensures gives { Gives (seen result) input.new text.new
        (listing_of (seen t) (take (t.waiting + got) input.old) input.old got text.old) }
    ensures code_value { 76 ≤ length text.old → t.waiting < length input.old → (seen result).code ≡ 0 }
{
    let have = t.waiting + got;
    let listed = match list(&input[..have], t.number, text) {
        Ok(listed) => listed,
        Err(reason) => return stop(t, Err(reason), 0),
    };
    let used = listed.used;
    if used + got == 0 {
        return end(t, have as u64, input.len(), text);
    }
    rest(listed.made, listed.number, input, used, have)
}

// What the window has left waits at the front of the input, or is counted where a broken record begins.
fn rest(made: usize, number: u64, input: &mut [u8], used: usize, have: usize) -> State
    requires { (used ≤ have) × (have ≤ length input.old) }
    ensures { (text : List ℕ) → Gives (seen result) input.new text
        (keeping made number (drop used (take have input.old)) input.old text) }
{
    if is_bad(&input[used..have]) {
        return on(made, number, 0, Some((have - used) as u64));
    }
    let waiting = keep(input, used, have).unwrap();
    on(made, number, waiting, None)
}

fn is_bad(s: &[u8]) -> bool
    ensures { result ≡ is_bad (front s.now) }
{
    matches!(first(s), Next::Bad)
}

// Counts what was read of a broken record, of which `left` bytes were counted, in an input of `len` bytes.
fn count(t: State, left: u64, len: usize, got: usize, text: &mut [u8]) -> State
    requires { t.broken ≡ Some left }
    ensures by_index { (input : List ℕ) → length input ≡ len → Gives (seen result) input text.new (counting (seen t) input got text.old) }
    ensures code_value { 76 ≤ length text.old → t.waiting < len → (seen result).code ≡ 0 }
{
    if got == 0 {
        return end(t, left, len, text);
    }
    let left = left.wrapping_add(got as u64);
    on(0, t.number, t.waiting, Some(left))
}

// The log has ended, and `left` bytes are left. Where the input had no room to read into, nobody knows that: 6.
fn end(t: State, left: u64, len: usize, text: &mut [u8]) -> State
    ensures by_index { (input : List ℕ) → length input ≡ len → Gives (seen result) input text.new (Turns·ending (seen t) left input text.old) }
    ensures code_value { 76 ≤ length text.old → t.waiting < len → (seen result).code ≡ 0 }
{
    if t.waiting < len {
        return match ending(text, t.number, left) {
            Ok(made) => stop(t, Ok(()), made),
            Err(reason) => stop(t, Err(reason), 0),
        };
    }
    stop(t, Err(Reason::Room), 0)
}

fn stop(t: State, verdict: Result<(), Reason>, made: usize) -> State
    ensures { seen result ≡ stopped (seen t) (code_of verdict) made }
{
    State {
        made,
        ended: Some(verdict),
        ..t
    }
}

fn on(made: usize, number: u64, waiting: usize, broken: Option<u64>) -> State
    ensures { seen result ≡ Turns·on made number waiting (is_some broken) (counted_of broken) }
{
    State {
        made,
        ended: None,
        number,
        waiting,
        broken,
    }
}
