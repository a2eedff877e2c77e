#![tactic(auto)]

// Rows of digits modulo 3 that are tied, and elimination: definitions and laws; no function.
