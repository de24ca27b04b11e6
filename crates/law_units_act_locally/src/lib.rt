//! Laws of locality: what a unit puts or delivers was offered to it, or got by it, and control messages keep to their interface.
//!
//! - `local_packets`: Each packet that a unit puts or delivers was offered or got there, for the same terminal, bearer and direction.
//! - `local_lengths`: The same with numbers as long as each terminal's plan says.
//! - `local`: The same in the octets of each link.
//! - `cu_cp_interfaces`: A CU-CP puts each message on its interface, where it got messages so.
//! - `run_interfaces`: Each control message in a run is of the interface between its two ends.
//! - `local_interfaces`: Nothing passes but over links, each control message on its interface.
#![tactic(auto)]

pub mod cu_cp_interfaces;
pub mod local;
pub mod local_interfaces;
pub mod local_lengths;
pub mod local_packets;
pub mod run_interfaces;
