// Blocks of a matrix file of any layout.
#![tactic(auto)]

pub mod blocks;
pub mod counts;
pub mod faults;
pub mod files;
pub mod layouts;
