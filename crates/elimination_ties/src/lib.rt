// The tie of rows of digits modulo 3, as a list of rows and digits.
#![tactic(auto)]

pub mod any_size;
pub mod ties;
