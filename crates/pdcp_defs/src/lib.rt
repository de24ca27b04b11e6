//! Definitions alone: the sending and the receiving entity of PDCP, with their COUNTs in full.
#![tactic(auto)]

pub mod pool_defs;
