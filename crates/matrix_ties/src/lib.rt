// The rows of the matrix file, judged together, and the list of those that are tied.
#![tactic(auto)]

pub mod lists;
pub mod ties;
