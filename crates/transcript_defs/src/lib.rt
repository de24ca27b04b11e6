//! Definitions alone: which texts are printed transcripts, and which of them are sound.
#![tactic(auto)]

pub mod line;
pub mod rule;
