//! The text of a scenario: the events that a script may have, and the lines of its transcript.
#![tactic(auto)]

pub mod event;
pub mod line;
pub mod print;
pub mod read;
pub mod script_words;
