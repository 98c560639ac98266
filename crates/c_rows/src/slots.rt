// The slots of a message in a lent number, as `ais::slots` tells them.
ghost use Rattle.format.specs.Refusals.{told_of};
ghost use Rattle.c_rows.specs.Slots.{SlotsTold};

use format::Refusal;

// The slots that `message` needs for that many data bytes, into `slots`.
pub fn slots(message: u8, bytes: usize, slots: &mut u8) -> Result<(), Refusal>
    ensures { SlotsTold message bytes slots.old (told_of result) slots.new }
{
    *slots = ais::slots(message, bytes)?;
    Ok(())
}
