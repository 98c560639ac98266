// The packet (paper 01, "Notice and packet"; 000, 5.2.2.2): reading, writing and correcting it.
#![tactic(auto)]

pub use crate::correcting::correct;
pub use crate::reading::{JOINED, MOST, PART, Packet, content, read};
pub use crate::splitting::{next_number, split};
pub use crate::writing::write;

pub mod correcting;
pub mod reading;
pub mod splitting;
pub mod writing;
