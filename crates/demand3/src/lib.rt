//! No code: demand 3, one theorem over every list of calls of a fresh host.

#![tactic(auto)]
