// Differences and inner shares modulo 3.
#![tactic(auto)]

pub mod shares;
