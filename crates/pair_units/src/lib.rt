// The unit: its state, its beginning and its step.
#![tactic(auto)]

pub mod begin;
pub mod padding;
pub mod state;
pub mod steps;
pub mod unit;
