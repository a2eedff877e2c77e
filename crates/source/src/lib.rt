// A random source: its reader of pairs, bytes copied from any pair on, and draws.
#![tactic(auto)]

pub mod copying;
pub mod drawing;
pub mod reader;
