// A step of the unit in a slice.
#![tactic(auto)]

pub mod step;
