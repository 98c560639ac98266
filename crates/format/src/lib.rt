// What a message is: specs/ has layouts, reading, writing and correcting by them, and what is proved of every layout. Here are the refusals: their reasons, and the bit of the field at fault.
#![tactic(auto)]

ghost use Rattle.std.specs.Prelude.{◌≡◌};
ghost use Rattle.format.specs.Refusals.{number, placed, seen_refusal, shown, bare, told_of, packed};

// Why a call refuses: the reasons of paper 01, in the order of their numbers. Success has none.
#[derive(Clone, Copy, PartialEq, Eq)]
pub enum Reason {
    Size,
    Kind,
    Checksum,
    Range,
    Fill,
    Room,
    Contradicts,
    Taken,
    Incomplete,
    Field,
    Unknown,
}

impl Reason {
    // Its number in paper 01.
    pub fn number(self) -> u8
        ensures { result ≡ number self }
    {
        match self {
            Reason::Size => 1,
            Reason::Kind => 2,
            Reason::Checksum => 3,
            Reason::Range => 4,
            Reason::Fill => 5,
            Reason::Room => 6,
            Reason::Contradicts => 7,
            Reason::Taken => 8,
            Reason::Incomplete => 9,
            Reason::Field => 10,
            Reason::Unknown => 11,
        }
    }

    // Whether refusals for it tell a bit: a field that does not fit, one outside its range, a fill that is not zero.
    fn tells(self) -> bool
        ensures { result ≡ placed (number self) }
    {
        matches!(self, Reason::Size | Reason::Range | Reason::Fill)
    }
}

// Why a call refused, and where: the first bit of the field at fault, counted from the message's start, and 0 where no field gave the
// refusal.
#[derive(Clone, Copy, PartialEq, Eq)]
pub struct Refusal {
    pub reason: Reason,
    pub bit: usize,
}

impl Refusal {
    // What is told of a refusal that arose at that bit: reasons 1, 4 and 5 tell it, and no other.
    pub fn shown(reason: Reason, bit: usize) -> Refusal
        ensures { seen_refusal result ≡ shown (number reason) bit }
    {
        if reason.tells() {
            return Refusal { reason, bit };
        }
        reason.into()
    }
}

// A refusal that no field gave.
impl From<Reason> for Refusal {
    ghost from_gives = { λ reason refusal. seen_refusal refusal ≡ bare (number reason) };

    fn from(reason: Reason) -> Refusal {
        Refusal { reason, bit: 0 }
    }
}

// A call's outcome in one number, as C gets it: the reason's number in the low 8 bits, 0 for success, and the bit in the 24 above.
pub fn packed(outcome: Result<(), Refusal>) -> u32
    ensures { result ≡ packed (told_of outcome) }
{
    match outcome {
        Ok(()) => 0,
        Err(refusal) => {
            refusal.reason.number() as u32 + (refusal.bit % 16_777_216) as u32 * 256
        },
    }
}
