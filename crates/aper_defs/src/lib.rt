//! Definitions alone: values of a module's types, and their one spelling in the aligned variant of the packed encoding rules
//! (BASIC-PER, ITU-T X.691).
#![tactic(auto)]

pub mod feeding_defs;
pub mod loose_defs;
pub mod octet_defs;
mod reason;

pub use reason::Reason;
