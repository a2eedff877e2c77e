// What gives a code: the join of two share frames, and the function itself in one place.
#![tactic(auto)]

pub mod evaluator;
pub mod join;
