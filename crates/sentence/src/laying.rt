// The distress sentence around a report (001, A.2), laid down.
ghost use Rattle.std.specs.Prelude.{◌≡◌, ◌+◌, ◌≤◌, length};
ghost use Rattle.std.proofs.Math.Seq.{paste};
ghost use Rattle.sentence.specs.Pattern.{Laid, opening, summed_up};

use crate::Sentence;

// Puts the bytes of a part at an offset of the buffer.
fn put(buf: &mut [u8], at: usize, part: &[u8])
    requires { at + length part.now ≤ length buf.old }
    ensures { buf.new ≡ paste buf.old at part.now (length part.now) }
{
    buf[at..at + part.len()].copy_from_slice(part);
}

// All of a sentence but its address.
pub const AROUND: usize = Sentence::BITS / 8;

// Lays the sentence of an address's digits and of the report's bytes over the buffer's front. Where there is no room for it,
// says so and leaves every byte.
pub fn lay(buf: &mut [u8], digits: &[u8], bytes: [u8; 17]) -> bool
    ensures { Laid (summed_up (opening digits.now bytes)) buf.old result buf.new }
{
    if buf.len() < AROUND || buf.len() - AROUND < digits.len() {
        return false;
    }
    let inside = crate::spelling::hex(bytes);
    let mark = 7 + digits.len();
    let star = mark + 41;
    put(buf, 0, b"$CCTXA,");
    put(buf, 7, digits);
    put(buf, mark, b",2,2,A4");
    put(buf, mark + 7, &inside);
    let last = crate::spelling::closing(bits::xor(&buf[1..star]));
    put(buf, star, &last);
    true
}
