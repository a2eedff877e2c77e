// Sums of trit vectors modulo 3.
#![tactic(auto)]

pub mod sums;
