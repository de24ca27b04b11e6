//! What a status of the program says, in plain words on standard error. Neither standard output nor the exit status depends on it.
//!
//! - `awaited`: Which word of a line is the first wrong one, and what was awaited in its place.
//! - `statuses`: What a status says: the place, what was awaited there, and what was read.
//! - `unsound`: Which rule a text breaks that is no sound transcript.
#![tactic(auto)]

mod awaited;
mod statuses;
mod unsound;

pub use statuses::{Call, explain};
