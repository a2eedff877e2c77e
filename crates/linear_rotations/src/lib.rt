// The circulant product modulo 2 of two to eight words.
#![tactic(auto)]

pub mod rotations;
