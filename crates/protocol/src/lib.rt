// The service pair, as others see it: the calls of the C interface over units, dealer, sampler, join, evaluator and matrix file.
#![tactic(auto)]

pub mod interface;
pub mod units;
