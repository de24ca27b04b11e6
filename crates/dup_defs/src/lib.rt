//! Definitions alone: the transmitting entity of a bearer with PDCP duplication.
#![tactic(auto)]

pub mod dup_run_defs;
pub mod types;
