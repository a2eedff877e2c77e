#![tactic(auto)]

// Bits, trits and their products: definitions and laws; no function.
