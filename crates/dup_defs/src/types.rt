//! The types of a bearer with PDCP duplication (TS 38.323, 5.11): events and lines of its run, what its transmitting entity puts on its legs,
//! and why it doesn't.

pub mod error;
pub mod event;
pub mod leg;
pub mod line;
pub mod put;
pub mod stop;
