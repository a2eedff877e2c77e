// Frames: their lengths, by set, their headers and the fields of their bodies.
#![tactic(auto)]

pub mod copies;
pub mod fields;
pub mod frame;
pub mod header;
pub mod parameters;
pub mod sets;
pub mod sizes;
