// A unit's state in a slice: how it begins there, and the own mask that is made of it.
#![tactic(auto)]

pub mod beginnings;
pub mod masks;
