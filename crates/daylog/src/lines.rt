// Lines of text in a lent buffer. Each part is written at an offset of it, and answers the offset after it.
ghost use Rattle.std.specs.Prelude.{◌≡◌, ◌+◌, ◌%◌, ◌<◌, ◌≤◌, [], ◌∷◌, length, nat_le};
ghost use Rattle.format.specs.Refusals.{told_of};
ghost use Rattle.daylog.specs.LinesText.{decimal as Text·decimal, line as Text·line};
ghost use Rattle.daylog.specs.Stores.{placed, Stores};

use format::Refusal;

// All of the longest line but its word: three numbers of 20 digits, a code of 3, four spaces and the line feed.
const COLUMNS: usize = 68;

// A line: number, word, code, bytes and bit, as a call told its outcome. Where it has no room, answers the same offset and leaves every
// byte. No line is longer than its word and 68 bytes.
pub fn line(
    out: &mut [u8],
    at: usize,
    number: u64,
    word: &[u8],
    outcome: Result<(), Refusal>,
    bytes: u64,
) -> usize
    ensures stores { Stores out.old at (placed out.old at (Text·line number word.now (told_of outcome) bytes)) result out.new }
    ensures longest { length (Text·line number word.now (told_of outcome) bytes) ≤ length word.now + 68 }
{
    let (code, bit) = told(outcome);
    if line_fits(out.len(), at, number, word, code, bit, bytes) {
        return columns(out, at, number, word, code, bit, bytes);
    }
    at
}

// The number and the bit of a call's outcome: from here on they are what the line shows, and no refusal.
fn told(outcome: Result<(), Refusal>) -> (u8, usize)
    ensures { (result.0 ≡ (told_of outcome).code) × (result.1 ≡ (told_of outcome).bit) }
{
    match outcome {
        Ok(()) => (0, 0),
        Err(refusal) => (refusal.reason.number(), refusal.bit),
    }
}

// Whether the line has room at offset `at` of `len` bytes. Where the longest one with its word has, no digit is counted.
fn line_fits(
    len: usize,
    at: usize,
    number: u64,
    word: &[u8],
    code: u8,
    bit: usize,
    bytes: u64,
) -> bool
    ensures { result ≡ nat_le (at + length (Text·line number word.now (record { code = code; bit = bit }) bytes)) len }
{
    if has_room(len, at, word.len() + COLUMNS) {
        return true;
    }
    let told = digit_count(code as u64) + digit_count(bit as u64);
    let digits = digit_count(number) + told + digit_count(bytes);
    has_room(len, at, word.len() + digits + 5)
}

fn columns(
    out: &mut [u8],
    at: usize,
    number: u64,
    word: &[u8],
    code: u8,
    bit: usize,
    bytes: u64,
) -> usize
    requires { at + length (Text·line number word.now (record { code = code; bit = bit }) bytes) ≤ length out.old }
    ensures { Stores out.old at (Text·line number word.now (record { code = code; bit = bit }) bytes) result out.new }
{
    let at = decimal(out, at, number);
    let at = mark(out, at, b' ');
    let at = put(out, at, word);
    let at = mark(out, at, b' ');
    let at = decimal(out, at, code as u64);
    let at = mark(out, at, b' ');
    let at = decimal(out, at, bytes);
    let at = mark(out, at, b' ');
    let at = decimal(out, at, bit as u64);
    mark(out, at, b'\n')
}

// The number's decimal digits, the last one first, as many as are counted beforehand.
fn decimal(out: &mut [u8], at: usize, number: u64) -> usize
    requires { at + length (Text·decimal number) ≤ length out.old }
    ensures { Stores out.old at (Text·decimal number) result out.new }
{
    // Most columns have one digit: it is neither counted nor divided.
    if number < 10 {
        return mark(out, at, digit(number));
    }
    let end = at + digit_count(number);
    let mut rest = number;
    for i in (at..end).rev() {
        out[i] = digit(rest);
        rest /= 10;
    }
    end
}

// How many decimal digits the number has, counted likewise.
fn digit_count(number: u64) -> usize
    ensures { result ≡ length (Text·decimal number) }
{
    match number.checked_ilog10() {
        Some(power) => power as usize + 1,
        None => 1,
    }
}

// The last decimal digit.
fn digit(number: u64) -> u8
    ensures { result ≡ 48 + number % 10 }
{
    48 + (number % 10) as u8
}

// A text as it is. Where there is no room for it, answers the same offset and leaves every byte.
pub fn text(out: &mut [u8], at: usize, bytes: &[u8]) -> usize
    ensures { Stores out.old at (placed out.old at bytes.now) result out.new }
{
    if has_room(out.len(), at, bytes.len()) {
        put(out, at, bytes)
    } else {
        at
    }
}

// Whether `n` bytes have room at offset `at` of `len` bytes.
pub fn has_room(len: usize, at: usize, n: usize) -> bool
    ensures { result ≡ nat_le (at + n) len }
{
    at <= len && n <= len - at
}

// Byte by byte: a word is short, and a call of `memcpy` costs more than its bytes.
fn put(out: &mut [u8], at: usize, bytes: &[u8]) -> usize
    requires { at + length bytes.now ≤ length out.old }
    ensures { Stores out.old at bytes.now result out.new }
{
    for (i, byte) in bytes.iter().enumerate() {
        out[at + i] = *byte;
    }
    at + bytes.len()
}

fn mark(out: &mut [u8], at: usize, byte: u8) -> usize
    requires { at < length out.old }
    ensures { Stores out.old at (byte ∷ []) result out.new }
{
    out[at] = byte;
    at + 1
}
