// What is wrong with a field, if anything.
ghost use Rattle.std.specs.Prelude.{◌≡◌, ◌+◌, ◌-◌, ◌*◌, ◌/◌, ◌||◌, ◌&&◌, leb, if◌then◌else◌, ◌==◌, nat_eq, nat_le, nat_lt};
ghost use Rattle.format.specs.Fmt.{pad};
ghost use Rattle.format.specs.Refusals.{number, code_of};
ghost use Rattle.walk.specs.Faults.{ranging, signing, blanking, closes};

use format::Reason;

// A number from lo to hi, else refused for that reason.
pub fn inside(v: u64, lo: u64, hi: u64, reason: Reason) -> Result<(), Reason>
    ensures { code_of result ≡ (if leb lo v && nat_le v hi then 0 else number reason) }
{
    if v < lo || hi < v {
        return Err(reason);
    }
    Ok(())
}

pub fn range(s: &[u8], at: usize, w: usize, lo: u64, hi: u64, reason: Reason) -> Result<(), Reason>
    ensures { code_of result ≡ ranging s.now at w lo hi (number reason) }
{
    if !bits::holds(s.len(), at, w) {
        return Err(Reason::Size);
    }
    inside(bits::get(s, at, w), lo, hi, reason)
}

pub fn signs(s: &[u8], at: usize, w: usize, top: u64, bottom: u64, none: u64) -> Result<(), Reason>
    ensures { code_of result ≡ signing s.now at w top bottom none }
{
    if !bits::holds(s.len(), at, w) {
        return Err(Reason::Size);
    }
    sign(bits::get(s, at, w), top, bottom, none)
}

// What was judged of a field, where it is there; else it is cut.
pub fn unless_cut(there: bool, judged: Result<(), Reason>) -> Result<(), Reason>
    ensures { code_of result ≡ (if there then code_of judged else 1) }
{
    if there { judged } else { Err(Reason::Size) }
}

// Whether w bits from bit `at` on lie within `len` bytes.
pub fn lies_within(len: usize, at: usize, w: u32) -> bool
    ensures { result ≡ nat_le (at + w) (len * 8) }
{
    at / 8 + (at % 8 + w as usize + 7) / 8 <= len
}

// 1 where w bits from bit `at` on do not lie within s or are more than 64, 5 where one of them is set. They are looked at in
// two halves, and lie within s where the second does.
pub fn clear(s: &[u8], at: usize, w: u32) -> Result<(), Reason>
    ensures { code_of result ≡ blanking s.now at w }
{
    let high = (w / 2) as usize;
    let low = (w - w / 2) as usize;
    let middle = std::num::wrapping_add_usize(at, high);
    if !bits::holds(s.len(), middle, low) {
        return Err(Reason::Size);
    }
    if bits::get(s, at, high) != 0 || bits::get(s, middle, low) != 0 {
        return Err(Reason::Fill);
    }
    Ok(())
}

// The fill bits up to a whole byte.
pub fn padding(at: usize) -> usize
    ensures { result ≡ pad at }
{
    (8 - at % 8) % 8
}

// How far behind the last field the fault lies: the fill begins there, and what is left over after it.
pub fn past(fault: Result<(), Reason>, at: usize) -> usize
    ensures { result ≡ (if nat_eq (code_of fault) 5 then 0 else pad at) }
{
    match fault {
        Err(Reason::Fill) => 0,
        _ => padding(at),
    }
}

// 5 where a bit up to the next whole byte is set, 1 where that is not the end.
pub fn closing(s: &[u8], at: usize) -> Result<(), Reason>
    ensures { code_of result ≡ closes s.now at }
{
    if bits::get(s, at, padding(at)) != 0 {
        return Err(Reason::Fill);
    }
    if at / 8 + (at % 8 + 7) / 8 != s.len() {
        return Err(Reason::Size);
    }
    Ok(())
}

// The whole bytes from bit `at` on.
pub fn whole_bytes(len: usize, at: usize) -> u64
    ensures { result ≡ (len * 8 - at) / 8 }
{
    len.saturating_sub(at / 8 + (at % 8 + 7) / 8) as u64
}

// Whether v spells a number from 0 to `top`, from `bottom` up, or `none`.
pub fn sign(v: u64, top: u64, bottom: u64, none: u64) -> Result<(), Reason>
    ensures { code_of result ≡ (if leb v top || nat_le bottom v || v == none then 0 else 4) }
{
    if v <= top || bottom <= v || v == none {
        return Ok(());
    }
    Err(Reason::Range)
}

// The same of a number that has `full` values.
pub fn spells(v: u64, full: u64, top: u64, bottom: u64, none: u64) -> Result<(), Reason>
    ensures { code_of result ≡ (if nat_lt v full then (if leb v top || nat_le bottom v || v == none then 0 else 4) else 4) }
{
    if v >= full {
        return Err(Reason::Range);
    }
    sign(v, top, bottom, none)
}
