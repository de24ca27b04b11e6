//! The events of a run of the whole base station.
//!
//! - `bearers`: A packet is offered, a delivery status is asked for, and a bearer is asked whether it is quiet.
//! - `injects`: Octets from outside are given to a node, where they don't decode.
//! - `orders`: A unit is given an order.
//! - `attaches`: A terminal comes.
#![tactic(auto)]

pub mod attaches;
pub mod bearers;
pub mod injects;
pub mod orders;
