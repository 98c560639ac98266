// The distress report (paper 01, "Distress report"; 001, A.1): reading, writing and correcting it.
#![tactic(auto)]

pub use crate::correcting::correct;
pub use crate::reading::{CODE, Report, read};
pub use crate::writing::write;

pub mod correcting;
pub mod reading;
pub mod writing;
