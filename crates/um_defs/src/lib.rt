//! Definitions alone: the receiving entity of an unacknowledged bearer, with its reordering timer.
#![tactic(auto)]

pub mod types;
pub mod um_run_defs;
