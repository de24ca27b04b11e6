//! Definitions alone: what stands on each link, as octets.
#![tactic(auto)]

pub mod read_defs;
