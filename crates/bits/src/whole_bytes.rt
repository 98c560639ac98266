// Runs of bytes that start at any bit of a message.
ghost use Rattle.std.specs.Prelude.{cond, ◌++◌, ◌≡◌, ◌+◌, ◌*◌, ◌/◌, ◌≤◌, ◌<◌, length, take, drop};
ghost use Rattle.bits.specs.Answers.{spanned, gettable};
ghost use Rattle.bits.specs.Bits.{bytes_at, put_bytes_at};
ghost use Rattle.bits.specs.Across.{across_of};

// The `n` bytes that start at bit `at` of `s`, which need be no byte's first, into the front of `out`. Where they do not lie
// within `s`, or `out` is too short, says so and leaves every byte.
pub fn get_bytes(s: &[u8], at: usize, n: usize, out: &mut [u8]) -> bool
    ensures { (result ≡ gettable s.now at n out.old)
        × (out.new ≡ cond result (bytes_at s.now at n ++ drop n out.old) out.old) }
{
    let fits = spans(s.len(), at, n) && n <= out.len();
    if fits {
        slide(s, at, &mut out[..n]);
    }
    fits
}

// Makes the bytes that start at bit `at` of `buf`, which need be no byte's first, be `t`. Where they do not lie within `buf`,
// says so and leaves every byte.
pub fn put_bytes(buf: &mut [u8], at: usize, t: &[u8]) -> bool
    ensures { (result ≡ spanned (length buf.old) at (length t.now))
        × (buf.new ≡ cond result (put_bytes_at buf.old at t.now) buf.old) }
{
    let fits = spans(buf.len(), at, t.len());
    if fits && !t.is_empty() {
        pour(buf, at, t);
    }
    fits
}

// Whether the `n` bytes that start at bit `at` lie within a message of `len` bytes.
pub fn spans(len: usize, at: usize, n: usize) -> bool
    ensures { result ≡ spanned len at n }
{
    n <= len && bytes_to(at) <= len - n
}

// Fills `out` with the bytes that start at bit `at` of `s`.
fn slide(s: &[u8], at: usize, out: &mut [u8])
    requires { at + length out.old * 8 ≤ length s.now * 8 }
    ensures { out.new ≡ bytes_at s.now at (length out.old) }
{
    let high = at / 8;
    let low = bytes_to(at);
    for (i, byte) in out.iter_mut().enumerate() {
        *byte = across(s[high + i], s[low + i], at);
    }
}

// Makes the bytes that start at bit `at` of `buf` be `t`: those bits of the first byte of `t` that end a byte of `buf`, then
// the whole bytes of `buf`, then the bits of the last byte of `t` that are left.
fn pour(buf: &mut [u8], at: usize, t: &[u8])
    requires { (0 < length t.now) × (at + length t.now * 8 ≤ length buf.old * 8) }
    ensures { buf.new ≡ put_bytes_at buf.old at t.now }
{
    let left = at % 8;
    let first = 8 - left;
    let whole = t.len() - 1;
    let begin = at / 8 + 1;
    let end = begin + whole;
    crate::put(buf, at, first, crate::get(t, 0, first));
    slide(t, first, &mut buf[begin..end]);
    crate::put(
        &mut buf[end..],
        0,
        left,
        crate::get(&t[whole..], first, left),
    );
}

// How many bytes hold the bits before bit `at`: the byte where a run's byte ends, if bit `at` is its first.
pub fn bytes_to(at: usize) -> usize
    ensures { result ≡ (at + 7) / 8 }
{
    at / 8 + (at % 8 + 7) / 8
}

// The byte that starts at bit `at` of a message, from the byte in which it starts and the byte in which it ends; where they
// are one, it stands for both. A loop over a run asks it for each byte, and the compiler works out once what hangs on `at`.
pub fn across(high: u8, low: u8, at: usize) -> u8
    ensures { result ≡ across_of high low at }
{
    let pair = u16::from(high) * 256 + u16::from(low);
    ((pair >> (8 - at % 8)) % 256) as u8
}
