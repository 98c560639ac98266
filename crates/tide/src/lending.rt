// What a caller needs to know before it lends a row to the tide's calls: how long it must be, and which field its first number is.
ghost use Rattle.std.specs.Prelude.{◌≡◌};
ghost use Rattle.tide.specs.Limits.{limits};

use crate::reading::Tide;

impl Tide {
    // The most numbers of a telegram's records, and the most levels.
    pub const ROW: usize = 234;

    pub const HEIGHTS: usize = 51;

    // The number of the field that stands in the row first.
    pub const FIRST_ENTRY: usize = 4;
}

// A row of `numbers` entries has room for any telegram's numbers, and one of `heights` for its heights.
#[derive(Clone, Copy)]
pub struct Bounds {
    pub numbers: usize,
    pub heights: usize,
    pub first_entry: usize,
}

// The same for every telegram.
pub fn limits() -> Bounds
    ensures { result ≡ limits }
{
    Bounds {
        numbers: Tide::ROW,
        heights: Tide::HEIGHTS,
        first_entry: Tide::FIRST_ENTRY,
    }
}
