// The frame TXSQ (paper 01, "Serial frames"): content for a receiver.
#![tactic(auto)]

pub use crate::correcting::correct;
pub use crate::reading::{LETTERS, Txsq, content, read};
pub use crate::writing::write;

pub mod correcting;
pub mod reading;
pub mod writing;
