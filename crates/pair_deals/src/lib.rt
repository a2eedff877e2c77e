// Both deal frames of a tape.
#![tactic(auto)]

pub mod frames;
pub mod tape;
