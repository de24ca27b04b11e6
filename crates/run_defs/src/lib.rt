//! Definitions alone: the links, the events and the run of the whole base station.
#![tactic(auto)]

pub mod plain_defs;
