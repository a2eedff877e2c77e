// The rows of the matrix file, each judged by itself.
#![tactic(auto)]

pub mod rows;
