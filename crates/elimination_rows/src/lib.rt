// Rows of digits modulo 3 in words. They are public: a branch or an index may depend on them.
#![tactic(auto)]

pub mod loading;
pub mod rows;
