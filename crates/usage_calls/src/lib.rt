//! No code: a call leaves what every domain used up to the call's own clock as it was.

#![tactic(auto)]
