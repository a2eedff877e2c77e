// The static library of `linear`: for C, its functions on strings and vectors under the same names and the same contracts.
#![tactic(auto)]

pub mod bits;
pub mod products;
pub mod trits;
