// The static library of `protocol`: for C, each of its functions under the same name and the same contract.
#![tactic(auto)]

pub mod interface;
pub mod units;
