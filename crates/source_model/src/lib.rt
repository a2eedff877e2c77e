#![tactic(auto)]

// Pairs of bits of a random source: definitions and laws; no function.
