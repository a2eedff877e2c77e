// The sampler: a tape from source bytes.
#![tactic(auto)]

pub mod packing;
pub mod sampler;
