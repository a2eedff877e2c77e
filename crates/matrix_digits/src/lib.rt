// The digits of the rows of a matrix file times a vector.
#![tactic(auto)]

pub mod digits;
