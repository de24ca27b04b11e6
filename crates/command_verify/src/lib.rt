//! The word `verify`: the lines of an input are judged as a transcript, and it is written whether they are sound.
//!
//! - `end`: How judging ends, the status that reports it, and what is written then.
//! - `judging`: The lines are read and judged, one after another.
//! - `report`: What judging came to is written.
#![tactic(auto)]

mod end;
mod judging;
mod report;

pub use end::VerifyEnd;
pub use report::verify;
