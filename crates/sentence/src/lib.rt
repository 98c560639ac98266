// The distress sentence (paper 01, "Distress report", second paragraph; 001, A.2): `$CCTXA,` address `,2,2,A4` report `*` sum CR LF.
#![tactic(auto)]

pub use crate::reading::read;
pub use crate::writing::write;

pub mod laying;
pub mod pattern;
pub mod reading;
pub mod spelling;
pub mod writing;

#[derive(Clone, Copy)]
pub struct Sentence;

impl Sentence {
    // The bits of a sentence besides its address, which has one digit to seven.
    pub const BITS: usize = 424;

    pub const LEAST: usize = Sentence::BITS / 8 + 1;

    pub const GREATEST: usize = Sentence::BITS / 8 + 7;
}

// The receiver's address; no leading zero.
pub const LEAST_ADDRESS: u32 = crate::pattern::LEAST_ADDRESS;

pub const GREATEST_ADDRESS: u32 = crate::pattern::GREATEST_ADDRESS;
