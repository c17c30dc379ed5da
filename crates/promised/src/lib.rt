//! Each public operation of the scheduler and of its formats, promised in the page's words alone: the code is proved
//! against the page, and no other definition need be believed. A module `of_host` has the operations of the crate
//! `host`, each under its own name; a method of `RunState` or of `Occupant` has `state_` or `occupant_` before it.

#![tactic(auto)]

pub mod of_advance;
pub mod of_generator;
pub mod of_host;
pub mod of_load_calls;
pub mod of_load_script;
pub mod of_masks;
pub mod of_policy;
pub mod of_records;
pub mod of_sched;
pub mod of_script;
pub mod of_service;
pub mod of_system;
pub mod of_text;
pub mod of_usage;
pub mod of_usage_parse;
pub mod of_usage_read;
pub mod of_usage_text;
pub mod of_usage_write;
pub mod of_verdict;
