// The distress sentence around a report (001, A.2): `$CCTXA,` address `,2,2,A4` report `*` sum CR LF. Its parts, tested.
ghost use Rattle.std.specs.Prelude.{◌≡◌, ◌<◌, ◌≤◌, cond, leb, length, Some, None, OnOk};
ghost use Rattle.format.specs.Refusals.{code_of};
ghost use Rattle.sentence.specs.Spelling.{spelt};
ghost use Rattle.sentence.specs.Pattern.{same_bytes, address_like, lead_of, around_so, around_of, told_around};

use crate::Sentence;
use format::Reason;

// The receiver's address; no leading zero.
pub const LEAST_ADDRESS: u32 = 1;

pub const GREATEST_ADDRESS: u32 = 2_097_151;

fn same(a: &[u8], b: &[u8]) -> bool
    ensures { result ≡ same_bytes a.now b.now }
{
    a == b
}

// The address that the digits are, with no leading zero: none where they are no address.
fn address(part: &[u8]) -> Option<u32>
    requires { 0 < length part.now }
    ensures { result ≡ cond (address_like part.now) (Some (spelt 0 part.now)) None }
{
    if part[0] != b'0' && crate::spelling::all_digits(part, 10) {
        number(part)
    } else {
        None
    }
}

// The number that decimal digits spell: none where it is above every address.
fn number(part: &[u8]) -> Option<u32>
    ensures { result ≡ cond (leb (spelt 0 part.now) 2_097_151) (Some (spelt 0 part.now)) None }
{
    let mut all = 0;
    for c in part {
        all = all * 10 + u32::from(crate::spelling::digit_value(*c));
        if all > GREATEST_ADDRESS {
            return None;
        }
    }
    Some(all)
}

// The first tests: size, start, last five bytes and sum.
fn lead(s: &[u8]) -> Result<(), Reason>
    ensures code { code_of result ≡ lead_of s.now }
    ensures size { OnOk result (54 ≤ length s.now) }
{
    let n = s.len();
    if n < Sentence::LEAST || n > Sentence::GREATEST {
        return Err(Reason::Size);
    }
    if !same(&s[0..7], b"$CCTXA,") {
        return Err(Reason::Kind);
    }
    let last = crate::spelling::closing(bits::xor(&s[1..n - 5]));
    if !same(&s[n - 5..], &last) {
        return Err(Reason::Checksum);
    }
    Ok(())
}

// The sentence around a report: the first tests, then all else that is unlike the pattern.
pub fn accept(s: &[u8]) -> Result<u32, Reason>
    ensures { told_around result ≡ around_of (around_so s.now) }
{
    lead(s)?;
    let n = s.len();
    if !same(&s[n - 46..n - 39], b",2,2,A4")
        || !crate::spelling::all_digits(&s[n - 39..n - 5], 16)
    {
        return Err(Reason::Range);
    }
    address(&s[7..n - 46]).ok_or(Reason::Range)
}
