//! The units of a run, as the run asks them.
#![tactic(auto)]

pub mod units;
