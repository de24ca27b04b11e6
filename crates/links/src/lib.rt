//! The links of the whole base station: control messages, tunnels and radios, with what stands on them.
#![tactic(auto)]

pub use crate::links_bag::{bag, error};

pub mod epochs;
pub mod items;
pub mod link_tallies;
pub mod links_bag;
pub mod radio;
pub mod radios;
pub mod tunnels;
