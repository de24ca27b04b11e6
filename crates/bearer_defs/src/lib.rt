//! Definitions alone: the model of one bearer in a run, its downlink and its uplink.
//!
//! - `chain_defs`: The downlink of a bearer, the orders that change it, and what each order asks for.
//! - `uplink_defs`: The uplink of a bearer, the orders that change it, and what each order asks for.
#![tactic(auto)]

pub mod chain_defs;
pub mod uplink_defs;
