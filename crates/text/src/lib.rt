// Text of a notice (paper 01, "Notice and packet"), at any bit of a message: characters 0x20 to 0x7E, in Chinese also pairs of GB 2312 level one.
#![tactic(auto)]

ghost use Rattle.std.specs.Prelude.{◌&&◌, ◌≡◌, ◌+◌, ◌*◌, ◌≤◌, length};
ghost use Rattle.bits.specs.Answers.{spanned};
ghost use Rattle.bits.specs.Bits.{bytes_at};
ghost use Rattle.text.specs.Text.{plain, level_one, english, chinese, in_language};

// Whether the `n` bytes that start at bit `at` of `s`, which need be no byte's first, lie within it and are text: English, or
// else Chinese.
#[tactic(auto, unfolding(crate::specs::Text::in_language))]
pub fn in_language(s: &[u8], at: usize, n: usize, english: bool) -> bool
    ensures { result ≡ (spanned (length s.now) at n && in_language english (bytes_at s.now at n)) }
{
    if !bits::whole_bytes::spans(s.len(), at, n) {
        return false;
    }
    if english {
        is_english(s, at, n)
    } else {
        is_chinese(s, at, n)
    }
}

// Whether a run is English. A byte that is not plain sticks: the loop has one way, so that the compiler takes many bytes at once.
fn is_english(s: &[u8], at: usize, n: usize) -> bool
    requires { at + n * 8 ≤ length s.now * 8 }
    ensures { result ≡ english (bytes_at s.now at n) }
{
    let high = at / 8;
    let low = bits::whole_bytes::bytes_to(at);
    let mut good = true;
    for i in 0..n {
        good = good & is_plain(bits::whole_bytes::across(s[high + i], s[low + i], at));
    }
    good
}

// Whether a run is Chinese. Each turn takes a plain character or a pair.
fn is_chinese(s: &[u8], at: usize, n: usize) -> bool
    requires { at + n * 8 ≤ length s.now * 8 }
    ensures { result ≡ chinese (bytes_at s.now at n) }
{
    let high = at / 8;
    let low = bits::whole_bytes::bytes_to(at);
    let mut places = 0..n;
    while let Some(i) = places.next() {
        let x = bits::whole_bytes::across(s[high + i], s[low + i], at);
        if is_plain(x) {
            continue;
        }
        let Some(j) = places.next() else {
            return false; // half a pair
        };
        if !is_level_one(x, bits::whole_bytes::across(s[high + j], s[low + j], at)) {
            return false;
        }
    }
    true
}

// A printing character of ASCII, or a space.
fn is_plain(x: u8) -> bool
    ensures { result ≡ plain x }
{
    matches!(x, b' '..=b'~')
}

// A pair of GB 2312 level one.
#[tactic(auto, unfolding(crate::specs::Text::level_one))]
fn is_level_one(x: u8, y: u8) -> bool
    ensures { result ≡ level_one x y }
{
    matches!((x, y), (0xB0..=0xD6, 0xA1..=0xFE) | (0xD7, 0xA1..=0xF9))
}
