//! The lines of a transcript are read: the line that a text is, exactly.
#![tactic(auto)]

pub mod lines;
