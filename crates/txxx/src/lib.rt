// The frame TXXX (paper 01, "Serial frames"): content from a sender, with the time.
#![tactic(auto)]

pub use crate::correcting::correct;
pub use crate::reading::{LETTERS, Txxx, content, read};
pub use crate::writing::write;

pub mod correcting;
pub mod reading;
pub mod writing;
