//! No code: tables of what the definitions give beside what is due, for the crates above.

#![tactic(auto)]
