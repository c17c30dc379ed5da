//! No code: what a rule to decide by is, the choice under it, settling, and what both keep, for any rule.

#![tactic(auto)]
