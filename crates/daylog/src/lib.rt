// The day log (paper 01, "Day log listing"): what stands in it, its listing a window of the log at a time, and the turns of
// a program that lists a log.
#![tactic(auto)]

ghost use Rattle.std.specs.Prelude.{◌≡◌, if◌then◌else◌, nat_eq};
ghost use Rattle.daylog.specs.Promises.{Lists, Ends, Heads, laid_of, listed_of};

use crate::kinds::entry;
pub use crate::kinds::refusal;
use crate::lines::{line, text};
use crate::records::HEAD;
pub use crate::records::{Next, first, keep};
pub use crate::turns::{State, begin, turn};
use format::Reason;

pub mod kinds;
pub mod lines;
pub mod records;
pub mod turns;

// How many bytes of the window are listed, how many bytes of text they made, and the next record's number.
#[derive(Clone, Copy)]
pub struct Listed {
    pub used: usize,
    pub made: usize,
    pub number: u64,
}

// Lists the whole records that the window begins with, as many as there is room for lines. No room for the first one's is 6.
pub fn list(s: &[u8], number: u64, out: &mut [u8]) -> Result<Listed, Reason>
    ensures { Lists s.now number out.old (listed_of number result) out.new }
{
    let mut used = 0;
    let mut made = 0;
    let mut n = number;
    loop {
        let rest = &s[used..];
        let Next::Record(kind, size) = first(rest) else {
            return Ok(Listed {
                used,
                made,
                number: n,
            });
        };
        let end = HEAD + size;
        let at = entry(out, made, n, kind, &rest[HEAD..end]);
        if at == made {
            if used == 0 {
                return Err(Reason::Room);
            }
            return Ok(Listed {
                used,
                made,
                number: n,
            });
        }
        made = at;
        used += end;
        // A log of 2^64 records does not come; the numbers would go on from 0.
        n = n.wrapping_add(1);
    }
}

// The end of the listing: the line of the record that is broken, where bytes are left. No room for it is 6.
pub fn ending(out: &mut [u8], number: u64, left: u64) -> Result<usize, Reason>
    ensures { Ends out.old number left (laid_of result) out.new }
{
    if left == 0 {
        return Ok(0);
    }
    let broken = Err(Reason::Size.into());
    laid(line(out, 0, number, b"broken", broken, left))
}

// The listing's first line. No room for it is 6.
pub fn heading(out: &mut [u8]) -> Result<usize, Reason>
    ensures { Heads out.old (laid_of result) out.new }
{
    laid(text(out, 0, b"n kind code bytes bit\n"))
}

// What a call answers that had something to write: how many bytes it made, or no room where it made none.
fn laid(made: usize) -> Result<usize, Reason>
    ensures { laid_of result ≡ (record { code = if nat_eq made 0 then 6 else 0; bytes = made }) }
{
    if made == 0 {
        Err(Reason::Room)
    } else {
        Ok(made)
    }
}
