// The frame TXHZ (paper 01, "Serial frames"): a receiver, and the times of up to five messages and of their receipts.
#![tactic(auto)]

pub use crate::correcting::correct;
pub use crate::reading::{LETTERS, Receipt, Txhz, read};
pub use crate::writing::write;

pub mod correcting;
pub mod reading;
pub mod writing;
