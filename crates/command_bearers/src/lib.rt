//! The words whose input is a script of events without a header: a line is read and is skipped or an event, each event is applied
//! and its text written before the next line is read, and the end is reported.
//!
//! - `script_word`: what all of these words share: how a script is run, how it ends, and what a word must give for that.
//! - `command_um`: The word `um`: a script of events of one unacknowledged bearer.
//! - `command_dup`: The word `duplicate`: a script of events of one bearer with duplication.
#![tactic(auto)]

pub mod command_dup;
pub mod command_um;
pub mod script_word;
