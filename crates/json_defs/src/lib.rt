//! Definitions alone: values of a module's types as JSON (RFC 8259), and which JSON shows no value.
#![tactic(auto)]

mod fault;
pub mod shown_defs;
pub mod type_defs;

pub use fault::JsonFault;
