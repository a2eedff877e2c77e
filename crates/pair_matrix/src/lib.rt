// The matrix file of a unit's sizes: its length, its number, and its rows times a vector.
#![tactic(auto)]

pub mod layout;
pub mod rows;
