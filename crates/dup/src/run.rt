//! The run of one downlink bearer with PDCP duplication over two legs, up to the step in which it ends.

mod drain;
pub mod run;
mod steps;
