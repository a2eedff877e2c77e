// What the program's input may be refused for.
#![tactic(auto)]

pub mod input;
