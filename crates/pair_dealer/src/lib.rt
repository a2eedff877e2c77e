// The dealer: both deal frames.
#![tactic(auto)]

pub mod dealer;
