// The numbers that stand in a tide telegram's records, taken into a lent row: the records one behind another, in bit order.
ghost use Rattle.std.specs.Prelude.{◌≡◌, ◌+◌, ◌*◌, ◌^◌, ◌≤◌, ◌<◌, length};
ghost use Rattle.std.proofs.lemmas.List.Edits.{sets};
ghost use Rattle.tide.specs.Row.{placed_long};
ghost use Rattle.tide.specs.Standing.{front, placed_at, entries_at, record_at, records_at};
ghost use Rattle.tide.specs.Shapes.{place_of, shape_at, extent_at, filled};

use crate::entries::BYTES;
use crate::reading::Tide;
use crate::records::PORT;
use notice_fields::parts::{EXPIRY, LATITUDE, LONGITUDE, POINT};

// The bits of a port's code, of a time, and of an entry: time, sign, value.
pub const PORT_CODE: usize = 6;

pub const TIME: usize = EXPIRY;

pub const ENTRY: usize = TIME + 1 + 10;

// How many bits and numbers a position has behind its type.
#[derive(Clone, Copy)]
pub struct Place {
    pub wide: usize,
    pub long: usize,
}

// A record by its bits: how many entries it has and where the first stands, where the next record does, and how many numbers it is told by.
#[derive(Clone, Copy)]
pub struct Shape {
    pub entries: usize,
    pub first: usize,
    pub next: usize,
    pub numbers: usize,
}

// How many numbers and entries records have, all together.
#[derive(Clone, Copy)]
pub struct Extent {
    pub numbers: usize,
    pub entries: usize,
}

fn place_of(kind: u64) -> Place
    ensures { result ≡ place_of kind }
{
    if kind == PORT {
        return Place {
            wide: PORT_CODE,
            long: 1,
        };
    }
    Place {
        wide: POINT,
        long: 2,
    }
}

// The record at bit `at`.
pub(crate) fn record_at(s: &[u8], at: u32) -> Shape
    ensures { result ≡ shape_at s.now at }
{
    let at = at as usize;
    let place = place_of(bits::get(s, at, 1));
    let counted = at + 1 + place.wide + 1;
    let entries = bits::get(s, counted, 9) as usize;
    let first = counted + 9;
    Shape {
        entries,
        first,
        next: first + entries * ENTRY,
        numbers: place.long + 3 + entries * 3,
    }
}

// What the first `count` records of a telegram have.
pub(crate) fn measure(s: &[u8], count: u16) -> Extent
    ensures { result ≡ extent_at s.now count front }
{
    let mut numbers: usize = 0;
    let mut entries: usize = 0;
    let mut at = Tide::BITS as u32;
    for _ in 0..count {
        let shape = record_at(s, at);
        numbers += shape.numbers;
        entries += shape.entries;
        at = shape.next as u32;
    }
    Extent { numbers, entries }
}

// The numbers of a telegram's first `count` records, into the front of the row where it has room for all: how many they are.
pub(crate) fn fill(s: &[u8], count: u16, row: &mut [u32]) -> usize
    ensures { (result ≡ length (records_at s.now count front)) × (row.new ≡ filled (records_at s.now count front) row.old) }
{
    let extent = measure(s, count);
    let numbers = extent.numbers;
    if row.len() < numbers {
        return numbers;
    }
    store(s, count, row);
    numbers
}

// The same, where there is room.
fn store(s: &[u8], count: u16, row: &mut [u32])
    requires { length (records_at s.now count front) ≤ length row.old }
    ensures { row.new ≡ sets row.old 0 (records_at s.now count front) }
{
    let mut k: usize = 0;
    let mut at = Tide::BITS as u32;
    for _ in 0..count {
        let shape = record_at(s, at);
        fill_record(s, at as usize, row, k);
        k += shape.numbers;
        at = shape.next as u32;
    }
}

// A record's numbers, from row entry k on.
fn fill_record(s: &[u8], at: usize, row: &mut [u32], k: usize)
    requires { (at ≤ 2 ^ 32) × (k ≤ 2 ^ 32) × (k + length (record_at s.now at) ≤ length row.old) }
    ensures { row.new ≡ sets row.old k (record_at s.now at) }
{
    let kind = bits::get(s, at, 1);
    row[k] = kind as u32;
    fill_place(s, at + 1, kind, row, k + 1);
    let place = place_of(kind);
    let mark = at + 1 + place.wide;
    let next = k + 1 + place.long;
    row[next] = bits::get(s, mark, 1) as u32;
    let entries = bits::get(s, mark + 1, 9);
    row[next + 1] = entries as u32;
    fill_entries(s, mark + 1 + 9, entries as usize, row, next + 2);
}

// The numbers of a position of type `kind`, from row entry k on.
fn fill_place(s: &[u8], at: usize, kind: u64, row: &mut [u32], k: usize)
    requires { (at ≤ 2 ^ 33) × (k + placed_long kind ≤ length row.old) }
    ensures { row.new ≡ sets row.old k (placed_at s.now kind at) }
{
    if kind == PORT {
        row[k] = bits::get(s, at, PORT_CODE) as u32;
        return;
    }
    row[k] = bits::get(s, at, LATITUDE) as u32;
    row[k + 1] = bits::get(s, at + LATITUDE, LONGITUDE) as u32;
}

// The times, signs and values of n entries, from row entry k on.
fn fill_entries(s: &[u8], at: usize, n: usize, row: &mut [u32], k: usize)
    requires { (at ≤ 2 ^ 33) × (n ≤ 511) × (k + n * 3 ≤ length row.old) }
    ensures { row.new ≡ sets row.old k (entries_at s.now n at) }
{
    let from = at / 8;
    let skip = at % 8;
    for j in 0..n {
        let word = crate::entries::word(s, from + j * BYTES, skip);
        let to = k + j * 3;
        row[to] = (word / 2_048) as u32;
        row[to + 1] = (word / 1_024 % 2) as u32;
        row[to + 2] = (word % 1_024) as u32;
    }
}
