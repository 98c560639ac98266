// The tide telegram (paper 02, C-11; 000, 5.4): reading, writing and correcting it, and its heights.
#![tactic(auto)]

pub use crate::correcting::correct;
pub use crate::lending::{Bounds, limits};
pub use crate::reading::{Tide, Told, read};
pub use crate::writing::write;

pub mod correcting;
pub mod entries;
pub mod heights;
pub mod lending;
pub mod reading;
pub mod records;
pub mod row;
pub mod writing;
