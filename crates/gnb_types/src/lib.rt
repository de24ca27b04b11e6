//! The plain types that every crate stands on: names of nodes, terminals and bearers, lists, plans, and what units take and give.
#![tactic(auto)]

pub mod bits;
pub mod hex;
pub mod inputs;
pub mod items;
pub mod keys;
pub mod names;
pub mod octets;
pub mod outputs;
pub mod plans;
pub mod reasons;
pub mod results;
