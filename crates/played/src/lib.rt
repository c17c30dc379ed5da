//! No code: the host that a script holds is the one of its latest build, after the calls since; so demand 3 holds of it.

#![tactic(auto)]
