// The circulant product modulo 2.
#![tactic(auto)]

pub mod circulant;
mod quarters;
