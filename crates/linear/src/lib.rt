// Linear algebra modulo 2 and modulo 3 on packed bits, for any size. No public function asks anything of its caller: a byte past
// the end of an input counts as 0, sizes are those of the output, and what is past the written bytes stays.
#![tactic(auto)]

pub mod bits;
pub mod products;
pub mod trits;
