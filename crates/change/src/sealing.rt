// The seal of a message: its last byte is the XOR of all bytes before it.
ghost use Rattle.std.specs.Prelude.{true, ◌≡◌};
ghost use Rattle.format.specs.Message.{body, first_of, seal_fault};
ghost use Rattle.format.specs.Refusals.{code_of};
ghost use Rattle.format.specs.Sealing.{resealed, stamped};

use format::Reason;

// What the layout lays out: all bytes but the last.
pub fn inner(s: &[u8]) -> &[u8]
    ensures { result.now ≡ body true s.now }
{
    let n = s.len().saturating_sub(1);
    &s[..n]
}

// The outcome of the first tests, or 3 where the seal is another.
pub fn tested(s: &[u8], first: Result<(), Reason>) -> Result<(), Reason>
    ensures { code_of result ≡ first_of (seal_fault true s.now) (code_of first) }
{
    first?;
    if s.is_empty() {
        return Ok(());
    }
    let n = s.len() - 1;
    let sum = bits::xor(&s[..n]);
    if s[n] == sum {
        Ok(())
    } else {
        Err(Reason::Checksum)
    }
}

// Makes the seal anew.
pub fn seal(buf: &mut [u8])
    ensures { buf.new ≡ resealed buf.old }
{
    let n = buf.len().saturating_sub(1);
    stamp(buf, n);
}

// Makes the seal of a message that was just put in the first `n` bytes.
pub fn stamp(buf: &mut [u8], n: usize)
    ensures { buf.new ≡ stamped n buf.old }
{
    if n < buf.len() {
        let sum = bits::xor(&buf[..n]);
        buf[n] = sum;
    }
}
