// The numbers that stand in a notice's areas, taken into a lent row: the areas one behind another, each its kind and what it holds.
ghost use Rattle.std.specs.Prelude.{◌≡◌, ◌+◌, ◌*◌, ◌^◌, ◌≤◌, ◌<◌, length};
ghost use Rattle.std.proofs.lemmas.List.Edits.{sets};
ghost use Rattle.notice_fields.specs.Standing.{front, points_at, area_at, areas_at};
ghost use Rattle.notice_fields.specs.Shapes.{shape_at, extent_at, filled};

use crate::areas::{CIRCLE, FRONT, SEA};
use crate::parts::{LATITUDE, LONGITUDE, POINT};

// An area by its bits: how many points it has and where the first stands, where the next area does, and how many numbers it is told by.
#[derive(Clone, Copy)]
pub struct Shape {
    pub points: usize,
    pub first: usize,
    pub next: usize,
    pub numbers: usize,
}

// How many numbers and points areas have, all together.
#[derive(Clone, Copy)]
pub struct Extent {
    pub numbers: usize,
    pub points: usize,
}

// The area at bit `at`.
pub fn area_at(s: &[u8], at: u32) -> Shape
    ensures { result ≡ shape_at s.now at }
{
    let at = at as usize;
    let kind = bits::get(s, at, 3);
    if kind == SEA {
        return Shape {
            points: 0,
            first: at + 11,
            next: at + 11,
            numbers: 2,
        };
    }
    if kind == CIRCLE {
        return Shape {
            points: 1,
            first: at + 3,
            next: at + (3 + POINT + 12),
            numbers: 5,
        };
    }
    let points = bits::get(s, at + 3, 4) as usize;
    Shape {
        points,
        first: at + 7,
        next: at + 7 + points * POINT,
        numbers: 2 + points * 2,
    }
}

// What the first `count` areas of a notice have.
pub fn measure(s: &[u8], count: u8) -> Extent
    ensures { result ≡ extent_at s.now count front }
{
    let mut numbers: usize = 0;
    let mut points: usize = 0;
    let mut at = FRONT;
    for _ in 0..count {
        let area = area_at(s, at);
        numbers += area.numbers;
        points += area.points;
        at = area.next as u32;
    }
    Extent { numbers, points }
}

// The numbers of a notice's first `count` areas, into the front of the row where it has room for all: how many they are.
pub fn fill(s: &[u8], count: u8, row: &mut [u32]) -> usize
    ensures { (result ≡ length (areas_at s.now count front)) × (row.new ≡ filled (areas_at s.now count front) row.old) }
{
    let extent = measure(s, count);
    let numbers = extent.numbers;
    if row.len() < numbers {
        return numbers;
    }
    store(s, count, row);
    numbers
}

// The same, where there is room.
fn store(s: &[u8], count: u8, row: &mut [u32])
    requires { length (areas_at s.now count front) ≤ length row.old }
    ensures { row.new ≡ sets row.old 0 (areas_at s.now count front) }
{
    let mut k: usize = 0;
    let mut at = FRONT;
    for _ in 0..count {
        let area = area_at(s, at);
        fill_area(s, at as usize, row, k);
        k += area.numbers;
        at = area.next as u32;
    }
}

// An area's numbers, from row entry k on.
fn fill_area(s: &[u8], at: usize, row: &mut [u32], k: usize)
    requires { (at < 2 ^ 32) × (k + length (area_at s.now at) ≤ length row.old) }
    ensures { row.new ≡ sets row.old k (area_at s.now at) }
{
    let kind = bits::get(s, at, 3);
    row[k] = kind as u32;
    if kind == SEA {
        row[k + 1] = bits::get(s, at + 3, 8) as u32;
        return;
    }
    if kind == CIRCLE {
        fill_points(s, at + 3, 1, row, k + 1);
        row[k + 3] = bits::get(s, at + 3 + POINT, 10) as u32;
        row[k + 4] = bits::get(s, at + 3 + POINT + 10, 2) as u32;
        return;
    }
    let points = bits::get(s, at + 3, 4);
    row[k + 1] = points as u32;
    fill_points(s, at + 7, points as usize, row, k + 2);
}

// The latitudes and longitudes of n points, from row entry k on.
fn fill_points(s: &[u8], at: usize, n: usize, row: &mut [u32], k: usize)
    requires { (at ≤ 2 ^ 33) × (n ≤ 15) × (k + n * 2 ≤ length row.old) }
    ensures { row.new ≡ sets row.old k (points_at s.now n at) }
{
    for j in 0..n {
        row[k + j * 2] = bits::get(s, at + j * POINT, LATITUDE) as u32;
        row[k + j * 2 + 1] = bits::get(s, at + j * POINT + LATITUDE, LONGITUDE) as u32;
    }
}
