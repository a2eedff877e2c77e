// The matrix file: definitions, laws, its round trip, and its sizes; no function.
#![tactic(auto)]

pub mod sizes;
