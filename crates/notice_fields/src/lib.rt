// The fields of a notice (paper 01, "Notice and packet"): those of several parts, the areas, and the areas as a row of numbers.
#![tactic(auto)]

pub mod areas;
pub mod making;
pub mod parts;
pub mod row;
