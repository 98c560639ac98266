// The records of a day log (paper 01, "Day log listing"): what the bytes of a window begin with, and those kept for the next.
ghost use Rattle.std.specs.Prelude.{◌≡◌, ◌+◌, ◌*◌};
ghost use Rattle.format.specs.Message.{between};
ghost use Rattle.daylog.specs.Records.{front};
ghost use Rattle.daylog.specs.Promises.{Keeps, laid_of};

use format::Reason;

// A record's head: its length and its kind.
pub const HEAD: usize = 4;

const GREATEST: usize = 256;

// What the bytes that are left begin with.
#[derive(Clone, Copy)]
pub enum Next {
    // A whole record: its kind, and the size of its body.
    Record(u16, usize),
    // A length that no record has.
    Bad,
    // Fewer bytes than the record has. At the end of the log, none left is its end, and some left are a cut record.
    Short,
}

pub fn first(s: &[u8]) -> Next
    ensures { result ≡ front s.now }
{
    if s.len() < HEAD {
        return Next::Short;
    }
    let whole = pair(s[0], s[1]) as usize;
    if !is_length(whole) {
        return Next::Bad;
    }
    if s.len() < whole {
        return Next::Short;
    }
    Next::Record(pair(s[2], s[3]), whole - HEAD)
}

// Whether a record can be so long.
fn is_length(whole: usize) -> bool
    ensures { result ≡ between 4 256 whole }
{
    matches!(whole, HEAD..=GREATEST)
}

// Moves the bytes from `from` up to `to` to the front, and answers how many they are. An end before its start is 4, one past
// the slice 6.
pub fn keep(s: &mut [u8], from: usize, to: usize) -> Result<usize, Reason>
    ensures { Keeps s.old from to (laid_of result) s.new }
{
    if to < from {
        return Err(Reason::Range);
    }
    if s.len() < to {
        return Err(Reason::Room);
    }
    s.copy_within(from..to, 0);
    Ok(to - from)
}

// A 16-bit number, its low byte first.
fn pair(low: u8, high: u8) -> u16
    ensures { result ≡ low + high * 256 }
{
    u16::from_le_bytes([low, high])
}
