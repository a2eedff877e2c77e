// Sums of bit strings modulo 2, for any size.
#![tactic(auto)]

pub mod bits;
