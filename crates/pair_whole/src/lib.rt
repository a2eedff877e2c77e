// A whole run in one place.
#![tactic(auto)]

pub mod run;
