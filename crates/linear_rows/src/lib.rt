// Rows of trits times a vector, modulo 3, by words.
#![tactic(auto)]

pub mod rows;
