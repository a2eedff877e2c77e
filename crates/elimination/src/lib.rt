// Whether rows of digits modulo 3 are tied, by elimination. Rows are public: a branch or an index may depend on them.
#![tactic(auto)]

pub mod elimination;
