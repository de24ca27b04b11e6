//! The terminals of a CU-UP (TS 37.483, 8.3; TS 38.401, 6.1.2).
//!
//! - `bearer_context`: A context has a terminal's bearers, and what they share.
//! - `contexts`: A CU-UP finds contexts by terminal, and tunnels by TEID.
#![tactic(auto)]

pub mod bearer_context;
pub mod contexts;
