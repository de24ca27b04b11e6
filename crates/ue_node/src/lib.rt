//! The terminal: what it is given, read from octets, goes to the row that takes it (TS 38.331, 5.3.5, 5.3.7; TS 38.323, 5.1.2, 5.2).
#![tactic(auto)]

mod inputs;
pub mod node;
pub mod rows;

pub use node::UeNode;
