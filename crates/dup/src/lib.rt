//! One downlink bearer with PDCP duplication as a script: its run and its text.
//!
//! - `run`: The run applies events over two legs, up to the step in which it ends.
//! - `text`: The text of events is read, and lines are printed.
#![tactic(auto)]

pub mod run;
pub mod text;
