// What the two AIS messages share (paper 01, "AIS" and "Refusal numbers"; ITU-R M.1371-5): their first tests.
ghost use Rattle.std.specs.Prelude.{◌≡◌};
ghost use Rattle.ais_common.specs.Lead.{handled, told};
ghost use Rattle.format.specs.Refusals.{code_of};

use format::Reason;

// The smallest size of a message, in bytes: a shorter one is of no kind.
pub const SMALLEST: usize = 23;

pub const AUTHORITY: u64 = 412;

// What tells a message's kind.
#[derive(Clone, Copy)]
pub struct Head {
    pub message: u64,
    // Authority, 10 bits, and application, 6 bits, side by side.
    pub application: u64,
    // What decides the layout of the rest: a warning's type, an area's shape.
    pub choice: u64,
}

// What the first tests ask of a message of a kind.
#[derive(Clone, Copy)]
pub struct Asked {
    pub message: u64,
    pub application: u64,
    // The last choice; the first is 1.
    pub choices: u64,
    pub bytes: usize,
}

impl Asked {
    // Whether a message with that head is of the kind.
    fn is_kind_of(self, head: Head) -> bool
        ensures { result ≡ handled self head }
    {
        head.message == self.message
            && head.application == self.application
            && 1 <= head.choice
            && head.choice <= self.choices
    }
}

// The first tests of a message of `len` bytes: smallest size; message, application and choice; size.
pub fn lead(len: usize, head: Head, asked: Asked) -> Result<(), Reason>
    ensures { code_of result ≡ told asked len head }
{
    if len < SMALLEST {
        return Err(Reason::Size);
    }
    if !asked.is_kind_of(head) {
        return Err(Reason::Kind);
    }
    if len != asked.bytes {
        return Err(Reason::Size);
    }
    Ok(())
}
