// Digits and what they spell: decimal, hex, and the end of a sentence.
ghost use Rattle.std.specs.Prelude.{◌≡◌, ◌/◌, ◌<◌};
ghost use Rattle.sentence.specs.Spelling.{figure_of, digit_value, all_digits, Spells, hex_of, unhexed_so, closing_of};

// What a digit counts, `0` to `9` or `a` to `f`: 16 for any other byte.
#[tactic(auto, unfolding(crate::specs::Spelling::digit_value))]
pub fn digit_value(c: u8) -> u8
    ensures { result ≡ digit_value c }
{
    match c {
        b'0'..=b'9' => c - b'0',
        b'a'..=b'f' => c - b'a' + 10,
        _ => 16,
    }
}

// The digit of n: `0` to `9`, then the letters from `ten` on.
#[tactic(auto, unfolding(crate::specs::Spelling::figure_of))]
fn figure(n: u8, ten: u8) -> u8
    requires { (n < 16) × (ten < 128) }
    ensures { result ≡ figure_of ten n }
{
    if n < 10 { b'0' + n } else { ten + (n - 10) }
}

// Whether each byte is a digit of the base. Nothing leaves the loop early, so that the compiler takes many bytes at once; with
// `all` it branches on whether a digit is above `9`, which no processor guesses of a report.
pub fn all_digits(part: &[u8], base: u8) -> bool
    ensures { result ≡ all_digits base part.now }
{
    part.iter()
        .fold(true, |all, c| all & (digit_value(*c) < base))
}

// Ten characters, of which those from `from` on are a number's digits and the others 0.
#[derive(Clone, Copy)]
pub struct Figures {
    pub from: usize,
    pub chars: [u8; 10],
}

// The decimal digits of a number, last to first: none has more than ten. The loop goes by what is left of the number; a `for`
// over the places would have to be left just where nothing is.
pub fn decimal(n: u32) -> Figures
    ensures { Spells n result.from result.chars }
{
    let mut chars = [0; 10];
    let mut from = 10;
    let mut rest = n;
    while rest > 0 {
        from -= 1;
        chars[from] = figure((rest % 10) as u8, b'a');
        rest /= 10;
    }
    Figures { from, chars }
}

// The bytes that 34 hex digits spell, another byte counting 0; for any other count of them, zeros.
pub fn unhex(part: &[u8]) -> [u8; 17]
    ensures { result ≡ unhexed_so part.now }
{
    let mut bytes = [0; 17];
    if part.len() != 34 {
        return bytes;
    }
    for (i, byte) in bytes.iter_mut().enumerate() {
        let high = digit_value(part[2 * i]) % 16;
        let low = digit_value(part[2 * i + 1]) % 16;
        *byte = high * 16 + low;
    }
    bytes
}

// The hex digits of 17 bytes.
pub fn hex(bytes: [u8; 17]) -> [u8; 34]
    ensures { result ≡ hex_of bytes }
{
    let mut out = [0; 34];
    for (i, b) in bytes.iter().enumerate() {
        out[2 * i] = figure(*b / 16, b'a');
        out[2 * i + 1] = figure(*b % 16, b'a');
    }
    out
}

// The end of a sentence by its sum: `*`, two capital hex digits, CR LF.
#[tactic(auto, unfolding(crate::specs::Spelling::closing_of))]
pub fn closing(sum: u8) -> [u8; 5]
    ensures { result ≡ closing_of sum }
{
    [
        b'*',
        figure(sum / 16, b'A'),
        figure(sum % 16, b'A'),
        b'\r',
        b'\n',
    ]
}
