// What the serial frames share (paper 01, "Serial frames"; 004): `$`, four letters, length, own address, and the seal.
#![tactic(auto)]

ghost use Rattle.std.specs.Prelude.{◌≡◌, true, cond, ◌+◌, ◌-◌, ◌<◌, ◌^◌, [], length, take, drop};
ghost use Rattle.frame.specs.Frame.{leads, declared as Frame·declared, fits};
ghost use Rattle.frame.specs.Steps.{headed, head_judged, head_put};
ghost use Rattle.format.specs.Fmt.{pad};
ghost use Rattle.format.specs.Message.{first_of, seal_fault};
ghost use Rattle.format.specs.Refusals.{code_of};
ghost use Rattle.walk.specs.Walk.{seen};

use format::Reason;
use walk::walk::Walk;

pub const DOLLAR: u64 = 0x24;

// The smallest serial frame.
pub const LEAST: usize = 12;

// The greatest address, own or another's.
pub const ADDRESS: u64 = 2_097_151;

// The greatest length that 16 bits can tell.
pub const LONGEST: u64 = 65_535;

pub const HOUR: u64 = 23;

pub const MINUTE: u64 = 59;

// The tests before the fields: the smallest size, `$` and letters, the kind's sizes and the declared one, then the seal.
pub fn first(s: &[u8], letters: u64, least: usize, most: usize) -> Result<(), Reason>
    ensures { code_of result ≡ first_of (seal_fault true s.now) (leads letters least most s.now) }
{
    change::sealing::tested(s, lead(s, letters, least, most))
}

fn lead(s: &[u8], letters: u64, least: usize, most: usize) -> Result<(), Reason>
    ensures { code_of result ≡ leads letters least most s.now }
{
    if s.len() < LEAST {
        return Err(Reason::Size);
    }
    if bits::get(s, 0, 8) != DOLLAR {
        return Err(Reason::Kind);
    }
    if bits::get(s, 8, 32) != letters {
        return Err(Reason::Kind);
    }
    if s.len() < least {
        return Err(Reason::Size);
    }
    if s.len() > most {
        return Err(Reason::Size);
    }
    let length = bits::get(s, 40, 16) as usize;
    if length != s.len() {
        return Err(Reason::Size);
    }
    Ok(())
}

// The walk over the head: it ends with the own address as its value.
pub fn head(s: &[u8], letters: u64, least: u64, most: u64) -> Walk
    ensures { (seen result ≡ headed s.now letters least most) × (result.v < 2 ^ 24) }
{
    let w = Walk::begin(0);
    let w = w.code(s, 8, DOLLAR);
    let w = w.code(s, 32, letters);
    let w = w.number(s, 16, false, least, most, Reason::Size);
    w.num(s, 24, 0, ADDRESS)
}

// The length of a frame that has `fixed` bytes besides its content.
pub fn declared(fixed: u8, content: usize) -> u64
    ensures { result ≡ Frame·declared fixed content }
{
    let fixed = fixed as usize;
    if content > 65_535 - fixed {
        return 0;
    }
    (fixed + content) as u64
}

// The head of a record's frame, judged.
pub fn judged(letters: u64, length: u64, address: u64) -> Walk
    ensures { seen result ≡ head_judged letters length address }
{
    let w = Walk::begin(0);
    let w = w.fixed(8, DOLLAR);
    let w = w.fixed(32, letters);
    let w = w.fixed(16, length);
    w.value(24, address, 0, ADDRESS)
}

// The head of a record's frame, put.
pub fn put(buf: &mut [u8], letters: u64, length: u64, address: u64)
    ensures { buf.new ≡ head_put letters length address buf.old }
{
    bits::put(buf, 0, 8, DOLLAR);
    bits::put(buf, 8, 32, letters);
    bits::put(buf, 40, 16, length);
    bits::put(buf, 56, 24, address);
}

// What is wrong with a bit length whose content does not make the frame's length, `fixed` bytes counted besides.
pub fn sized(fixed: u8, length: u64, size: u64) -> Result<(), Reason>
    ensures { code_of result ≡ cond (fits fixed length size) 0 1 }
{
    if length == fixed as u64 + size / 8 + (size % 8 + 7) / 8 {
        Ok(())
    } else {
        Err(Reason::Size)
    }
}

// The content of a frame, from byte `from` on, with `tail` bytes behind it: none where the frame was refused.
pub fn content(frame: &[u8], good: bool, from: usize, tail: usize) -> &[u8]
    ensures { result.now ≡ cond good (take (length frame.now - tail - from) (drop from frame.now)) [] }
{
    let end = frame.len().saturating_sub(tail);
    if !good || end < from {
        return &frame[..0];
    }
    &frame[from..end]
}

// The fill bits behind content of `size` bits.
pub fn unused_bits(size: u16) -> usize
    ensures { result ≡ pad size }
{
    (8 - size as usize % 8) % 8
}
