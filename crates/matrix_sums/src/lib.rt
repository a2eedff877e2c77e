// The check of a block.
#![tactic(auto)]

pub mod groups;
pub mod sums;
