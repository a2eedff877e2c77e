// The table's refusals and their numbers, which one a call returns, and what it leaves then; the sizes of the sets. Definitions and laws; its
// functions say the number of a refusal and of an answer.
#![tactic(auto)]

pub mod refusal;
pub mod sizes;
