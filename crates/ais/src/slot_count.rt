// How many slots an AIS message needs (paper 01, "AIS").
ghost use Rattle.std.specs.Prelude.{◌≡◌, length, ◌<◌};
ghost use Rattle.format.specs.Promises.{out_of, plain};
ghost use Rattle.ais.specs.Slots.{slots_for, slots_in};

use format::{Reason, Refusal};

// The most data bytes of 1 to 5 slots, for message 6 and for message 8.
const ADDRESSED: [usize; 5] = [8, 36, 64, 92, 117];

const BROADCAST: [usize; 5] = [12, 40, 68, 96, 121];

// The slots that `message` needs for that many data bytes: another message is 2, then no bytes or more than five slots have is 1.
pub fn slots(message: u8, bytes: usize) -> Result<u8, Refusal>
    ensures { out_of result ≡ plain (slots_for message bytes) }
{
    match message {
        6 => slots_in(&ADDRESSED, bytes),
        8 => slots_in(&BROADCAST, bytes),
        _ => Err(Reason::Kind.into()),
    }
}

// By a table of the most bytes of 1 slot, of 2, and so on.
fn slots_in(limits: &[usize], bytes: usize) -> Result<u8, Refusal>
    requires { length limits.now < 256 }
    ensures { out_of result ≡ plain (slots_in limits.now bytes) }
{
    if bytes == 0 {
        return Err(Reason::Size.into());
    }
    for (i, &limit) in limits.iter().enumerate() {
        if bytes <= limit {
            return Ok((i + 1) as u8);
        }
    }
    Err(Reason::Size.into())
}
