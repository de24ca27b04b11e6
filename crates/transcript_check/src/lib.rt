//! A checker of transcripts: it judges a text line by line, by the rules of a sound transcript.
#![tactic(auto)]

pub mod checker;
mod forms;
mod index;
mod judge;
pub mod packets;
mod past;
mod same;
pub mod spells;
