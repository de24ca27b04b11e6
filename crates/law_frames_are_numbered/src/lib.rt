//! Law: in every run the data frames that CU-UPs put on a tunnel have the NR-U numbers 0, 1, 2 and so on.
//!
//! - `run_switches`: No two switches name one downlink tunnel.
//! - `number_facts`: Proof steps: which bearer is switched to a tunnel, and that what a CU-UP puts there is counted.
//! - `tunnel_numbers`: The frames of every tunnel are numbered, in every run.
#![tactic(auto)]

pub mod number_facts;
pub mod run_switches;
pub mod tunnel_numbers;
