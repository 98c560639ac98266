// One field, a number made of parts, and the walk over fields. No function here has a precondition.
#![tactic(auto)]

pub mod faults;
pub mod judging;
pub mod making;
pub mod pieces;
pub mod reading;
pub mod sign;
pub mod walk;
