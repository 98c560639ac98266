// Lists the day log that stands on standard input (paper 01, "Day log listing"). What is listed, what is kept and when it
// ends is `daylog`'s: this program carries the bytes from the input to its turns, and from them to the output. What it cannot
// do it says on standard error, and it then ends with status 1.
#![tactic(auto)]

ghost use Rattle.std.specs.Prelude.{◌≤◌, length};

use std::io;
use std::io::Read;
use std::process::ExitCode;

// How many bytes the input and the text hold: room for any record and any line, so no turn is refused (`program_through`).
const ROOM: usize = 65536;

fn main(rt: HostRuntime) -> io::Result<ExitCode> {
    let mut input = [0; ROOM];
    let mut text = [0; ROOM];
    if carry(&rt, &mut rt.stdin(), &mut input, &mut text)? {
        return Ok(ExitCode::SUCCESS);
    }
    Ok(ExitCode::FAILURE)
}

// Writes what a turn made, reads and takes the next turn, until the listing is done; whether it is. A proved loop has to end,
// and nothing says that a log does, so it takes so many turns as no run uses up.
#[tactic(auto, using(daylog::specs::Laws::Turns::begin_within))]
fn carry(
    rt: &(impl Print + Eprint),
    log: &mut impl Read,
    input: &mut [u8],
    text: &mut [u8],
) -> io::Result<bool> {
    let mut state = daylog::begin(text);
    for _ in 0..u64::MAX {
        let made = state.made;
        if !put(rt, &text[..made])? {
            return Ok(false);
        }
        if state.ended.is_some() {
            return Ok(true);
        }
        let Some(got) = fill(rt, log, input, state.waiting)? else {
            return Ok(false);
        };
        state = daylog::turn(state, input, got, text);
    }
    Ok(true)
}

// Reads once, behind the bytes that are waiting, and answers how many bytes came: none more at the end of the log. Says why
// where the read fails.
fn fill(
    rt: &impl Eprint,
    log: &mut impl Read,
    input: &mut [u8],
    waiting: usize,
) -> io::Result<Option<usize>>
    requires { waiting ≤ length input.old }
{
    match log.read(&mut input[waiting..]) {
        Ok(got) => Ok(Some(got)),
        Err(error) => {
            eprintln!(rt; "read: {error}")?;
            Ok(None)
        }
    }
}

// Writes a text, or says why it cannot.
fn put(rt: &(impl Print + Eprint), text: &[u8]) -> io::Result<bool> {
    match rt.write_all(text) {
        Ok(()) => Ok(true),
        Err(error) => {
            eprintln!(rt; "write: {error}")?;
            Ok(false)
        }
    }
}
