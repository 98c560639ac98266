// The frame GLJC (paper 01, "Serial frames"): one byte, minutes.
#![tactic(auto)]

pub use crate::correcting::correct;
pub use crate::reading::{Gljc, LETTERS, read};
pub use crate::writing::write;

pub mod correcting;
pub mod reading;
pub mod writing;
