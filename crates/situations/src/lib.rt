//! No code: the host situations, lists at the ends and at the bounds of demand 3, and what it gives of each.

#![tactic(auto)]
