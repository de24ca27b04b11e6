//! The outside of the program, and the lines of its input; with it the plain types of `gnb_types`.
#![tactic(auto)]

pub mod lines;
pub mod memory;
pub mod outside;
pub mod standard;

pub use gnb_types::{bits, hex, inputs, items, keys, names, octets, outputs, plans, reasons};
