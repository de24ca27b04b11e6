//! What a run keeps beside its units and its core: control messages, tunnels, radios, plans and books; and what a part of a step does
//! to them, with the lines that it prints.
#![tactic(auto)]

pub mod book;
mod control_messages;
pub mod lines;
pub mod network;
mod outputs;
pub mod plans;
mod radios;
pub mod spans;
mod tunnels;
