// Frames that a unit takes in the slice of its state.
#![tactic(auto)]

pub mod slices;
