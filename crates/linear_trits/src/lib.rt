// Trit vectors in two planes: what an operation makes of two strings, word by word or byte by byte.
#![tactic(auto)]

pub mod operation;
pub mod vectors;
