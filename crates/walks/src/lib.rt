//! No code: steps that proofs by hand share, along a function's MIR, for the crates above.

#![tactic(auto)]
