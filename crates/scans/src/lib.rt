//! No code: what a scan of indices picks, its laws, and laws of Booleans, for the crates above.

#![tactic(auto)]
