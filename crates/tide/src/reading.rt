// The tide telegram (paper 02, C-11; 000, 5.4): reading it.
ghost use Rattle.std.specs.Prelude.{◌≡◌, ◌^◌, ◌<◌, IfOk};
ghost use Rattle.format.specs.Refusals.{shown, code_of, told_of};
ghost use Rattle.tide.specs.Tide.{tides};
ghost use Rattle.tide.specs.Promises.{Reads};
ghost use Rattle.tide.specs.Steps.{head_read, behind, course_of, course};
ghost use Rattle.walk.specs.Walk.{seen};

use crate::records::MOST;
use format::{Reason, Refusal};
use walk::walk::Walk;

// The numbers of its records stand beside it in a lent row, one record behind another, in bit order.
#[derive(Clone, Copy)]
pub struct Tide {
    // How many records, 1 to 511.
    pub count: u16,
}

// A telegram that was read: the record, and how many numbers its records have.
#[derive(Clone, Copy)]
pub struct Told {
    pub tide: Tide,
    pub numbers: usize,
}

impl Tide {
    // The bits of the head: where the first record begins.
    pub const BITS: usize = 21;

    pub const LEAST: usize = 9;

    pub const GREATEST: usize = 210;
}

// Type, version and data class.
pub const CODE: u64 = 0xE4;

pub const VERSION: u64 = 1;

pub const CLASS: u64 = 0;

// The walk over a whole telegram, and its record.
#[derive(Clone, Copy)]
pub struct Course {
    pub walk: Walk,
    pub tide: Tide,
}

// Reads a telegram: its record, and the numbers of its records into the front of the row.
pub fn read(s: &[u8], row: &mut [u32]) -> Result<Told, Refusal>
    ensures { Reads s.now row.old result row.new }
{
    let tide = fields(s, 0)?.tide;
    // A row that is too short stays as it was.
    let numbers = crate::row::fill(s, tide.count, row);
    if row.len() < numbers {
        return Err(Reason::Room.into());
    }
    Ok(Told { tide, numbers })
}

// The first tests, then the fields in bit order; on the way, field number `want` is found. What the first tests refuse is not walked.
pub(crate) fn fields(s: &[u8], want: usize) -> Result<Course, Refusal>
    ensures told { let w = (course_of want s.now).walk in told_of result ≡ shown w.code w.offset }
    ensures passed { IfOk result (λ f. course f ≡ course_of want s.now) }
{
    lead(s)?;
    let f = walked(s, want);
    f.walk.passed()?;
    Ok(f)
}

// The fields alone, whatever the first tests say.
pub(crate) fn walked(s: &[u8], want: usize) -> Course
    ensures { course result ≡ behind s.now (head_read want s.now) }
{
    let head = head(s, want);
    let count = head.v as u16;
    let walk = crate::records::walk(s, head, count).end(s);
    let tide = Tide { count };
    Course { walk, tide }
}

// The first tests: smallest size, type, version and class, greatest size.
fn lead(s: &[u8]) -> Result<(), Reason>
    ensures { code_of result ≡ tides.lead s.now }
{
    let size = s.len();
    if size < Tide::LEAST {
        return Err(Reason::Size);
    }
    if bits::get(s, 0, 8) != CODE {
        return Err(Reason::Kind);
    }
    if bits::get(s, 8, 3) != VERSION {
        return Err(Reason::Kind);
    }
    if bits::get(s, 11, 1) != CLASS {
        return Err(Reason::Kind);
    }
    if size > Tide::GREATEST {
        return Err(Reason::Size);
    }
    Ok(())
}

// Up to the records; their count is the walk's value.
fn head(s: &[u8], want: usize) -> Walk
    ensures { (seen result ≡ head_read want s.now) × (result.v < 2 ^ 9) }
{
    let kind = Walk::begin(want).code(s, 8, CODE).code(s, 3, VERSION);
    kind.code(s, 1, CLASS).decide(s, 9, 1, MOST)
}
