// A tide telegram for callers that lend numbers: how many records and how many numbers they have, each into one of them.
ghost use Rattle.format.specs.Refusals.{told_of};
ghost use Rattle.c_rows.specs.Tide.{TideTold, HeightsTold};

use format::Refusal;

// Reads the telegram: the numbers of its records into the front of the row, how many records there are into `count`, and how
// many numbers these have into `numbers`.
pub fn read(s: &[u8], count: &mut u16, numbers: &mut usize, row: &mut [u32]) -> Result<(), Refusal>
    ensures { TideTold s.now count.old numbers.old row.old (told_of result) count.new numbers.new row.new }
{
    let r = tide::read(s, row)?;
    *count = r.tide.count;
    *numbers = r.numbers;
    Ok(())
}

// The heights of the telegram into the front of the row, and how many they are into `count`.
pub fn heights(s: &[u8], row: &mut [i32], count: &mut usize) -> Result<(), Refusal>
    ensures { HeightsTold s.now row.old count.old (told_of result) row.new count.new }
{
    *count = tide::heights::heights(s, row)?;
    Ok(())
}
