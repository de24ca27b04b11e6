//! Tests of units, by public calls alone.
//!
//! - `du`: The contexts of a DU.
//! - `tests_cu_control`: The steps of a CU-CP.
//! - `tests_du_node`: The steps of a DU.
//! - `tests_forwarding`: The tunnels between two CU-UPs.
//! - `tests_handover`: The states of an attach, a handover and a return.
#![tactic(auto)]

pub mod du;
pub mod tests_cu_control;
pub mod tests_du_node;
pub mod tests_forwarding;
pub mod tests_handover;
