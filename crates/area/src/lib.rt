// Message 6 with application 412/11, an area marked off (paper 01, "AIS"; 003, tables 4 and 38 to 40).
#![tactic(auto)]

pub use crate::correcting::correct;
pub use crate::reading::shapes::{Circle, Rectangle, Shape};
pub use crate::reading::{APPLICATION, Area, MESSAGE, read};
pub use crate::writing::write;
pub use ais_common::head::AUTHORITY;

pub mod correcting;
pub mod reading;
pub mod shape_writing;
pub mod writing;
