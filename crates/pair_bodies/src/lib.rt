// The bodies of the mask and share frames that a unit writes.
#![tactic(auto)]

pub mod masks;
pub mod shares;
