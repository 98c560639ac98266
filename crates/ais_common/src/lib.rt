// What both AIS messages share (paper 01, "AIS"): the first tests of a head, and the times, of 20 bits and without the minute of 14.
#![tactic(auto)]

pub mod head;
pub mod time;
