// A matrix file of any layout that fits, with room for the elimination: check, reader, writer, and, with room for what rows carry, the list of
// tied rows. Each takes any bytes of any length.
#![tactic(auto)]

pub mod file;
pub mod ties;
