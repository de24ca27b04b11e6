//! One unacknowledged bearer (TS 38.323, 5.2.2): its receiving entity, its run, and its script's text.
//!
//! - `um_pdcp`: The receiving entity delivers, stores and drops packets, with its reordering timer (TS 38.323, 5.2.2).
//! - `run`: The run goes over a link that loses, repeats and reorders messages (TS 38.323, 5.2.1, 5.2.2).
//! - `text`: The text of events is read, and lines are printed.
#![tactic(auto)]

pub mod run;
pub mod text;
pub mod um_pdcp;
