#![tactic(auto)]

// The protocol: its definitions, the theorem over all lists of steps, and what the code's proofs cite; no function.
