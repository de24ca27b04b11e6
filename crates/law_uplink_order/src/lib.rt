//! Laws of the uplink of one bearer's model: every list of orders that keeps what they ask delivers in order, each packet once.
//!
//! - `facts`: Proof steps: what holds in every run of orders, and that what control does to one context keeps it.
//! - `takes`: Proof steps: what a CU-UP takes, passes on and delivers, and how its tunnels end.
//! - `moves`: Proof steps: what the terminal and its radio do, a freeze, and an arrival.
//! - `uplink`: A chain of contexts delivers in order over any handovers, with packets forwarded through several.
//! - `after_release`: What was delivered of a released terminal stays a prefix of what was offered.
//! - `closing`: Contexts end from the oldest on, with nothing left on their tunnels, down and up.
#![tactic(auto)]

pub mod after_release;
pub mod closing;
pub mod facts;
pub mod moves;
pub mod takes;
pub mod uplink;
