// Tests of trit vectors.
#![tactic(auto)]

pub mod fit;
