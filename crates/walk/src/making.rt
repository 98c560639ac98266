// Making a message from a lent row of numbers: what judging a stretch of them, or putting it, comes to.
ghost use Rattle.std.specs.Prelude.{◌≡◌, slice_index_or};
ghost use Rattle.format.specs.Promises.{room_for};

use crate::walk::Walk;

// The walk behind what was judged, and which number of the row comes next.
#[derive(Clone, Copy)]
pub struct Stepped {
    pub walk: Walk,
    pub next: usize,
}

// The bit behind what was put, and which number of the row comes next.
#[derive(Clone, Copy)]
pub struct Laid {
    pub at: usize,
    pub next: usize,
}

// A number of the row; past its end `missing` counts for it.
pub fn entry(row: &[u32], k: usize, missing: u64) -> u64
    ensures { result ≡ slice_index_or row.now k missing }
{
    if k < row.len() {
        row[k] as u64
    } else {
        missing
    }
}

// A buffer's room for what a row tells: none where the row has fewer numbers than it is asked for.
pub fn room(has: usize, asked: usize, room: usize) -> usize
    ensures { result ≡ room_for has asked room }
{
    if has < asked { 0 } else { room }
}
