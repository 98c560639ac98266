// Message 8 with application 412/03, a warning (paper 01, "AIS"; 003, tables 5 and 56 to 62).
#![tactic(auto)]

pub use crate::correcting::correct;
pub use crate::reading::{APPLICATION, MESSAGE, Warning, read};
pub use crate::writing::write;
pub use ais_common::head::AUTHORITY;

pub mod bodies;
pub mod body_writing;
pub mod correcting;
pub mod reading;
pub mod writing;
