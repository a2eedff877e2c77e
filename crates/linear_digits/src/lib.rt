// Rows of trits times a vector, modulo 3, digit by digit.
#![tactic(auto)]

pub mod digits;
pub mod partial;
