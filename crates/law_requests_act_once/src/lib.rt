//! Laws of control messages: in every run each request acts at most once, in the order of issue.
//!
//! - `channel`: Between any two nodes and for any terminal each request acts at most once, and each reply is to the request that it
//!   answers.
//! - `channel_rows`: Each step of the core, a DU, a CU-UP and a CU-CP makes orders of a channel, each of which may be made.
//! - `cu_cp_deadlines`: Only the request of a handover under preparation has a deadline, so that what expires can be cancelled.
//! - `cu_cp_offers`: The request of each offer stays the newest that the CU-CP took, unanswered.
//! - `unit_setups`: A DU and a CU-UP ask for the setup of their interface alone, and the core asks nothing.
//! - `taken_requests`: A CU-UP never takes an old request as new.
//! - `run_channels`: Each request acts at most once in every run, where CU-CPs fit what their rows ask.
//! - `run_once`: CU-CPs do fit, so each request acts at most once in every run, without a premise.
#![tactic(auto)]

pub mod channel;
pub mod channel_rows;
pub mod cu_cp_deadlines;
pub mod cu_cp_offers;
pub mod run_channels;
pub mod run_once;
pub mod taken_requests;
pub mod unit_setups;
