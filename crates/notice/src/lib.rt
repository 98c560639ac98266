// The notice telegram (paper 01, "Notice and packet"; 000, 5.2.2): reading, writing and correcting it.
#![tactic(auto)]

pub use crate::correcting::correct;
pub use crate::reading::{Notice, Told, read, refusal};
pub use crate::writing::write;

pub mod correcting;
pub mod reading;
pub mod writing;
