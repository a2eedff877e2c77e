// What a beginning and a step may be refused for, and the stages of a unit.
#![tactic(auto)]

pub mod begin;
pub mod conditions;
pub mod stages;
