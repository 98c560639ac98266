// What changes a message's bytes: putting its last fill, correcting a field, making its seal. No function here has a precondition.
#![tactic(auto)]

pub mod correcting;
pub mod putting;
pub mod sealing;
