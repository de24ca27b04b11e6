//! Bits of octets, the highest first, written and read (ITU-T X.691).
#![tactic(auto)]

pub mod laws;
pub mod low;
pub mod reader;
pub mod writer;
