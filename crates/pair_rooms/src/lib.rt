// The rooms of a unit's state in a slice: strings put there and kept there, each with zeros after it.
#![tactic(auto)]

pub mod keeping;
pub mod rooms;
