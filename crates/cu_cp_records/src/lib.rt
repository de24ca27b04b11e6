//! What a CU-CP keeps, and what its rows say to others.
//!
//! - `status_copies`: SN statuses are copied (TS 38.423, 9.1.1.4).
//! - `control_contexts`: A CU-CP keeps a terminal's context and the attempt that is under way (TS 38.401, 6.1.2).
//! - `control_actions`: A row says messages and tokens (TS 38.331) in order, and keeps the terminal's context.
//! - `control_requests`: A CU-CP makes requests of the units of its gNB, of the other CU-CP and of the core (TS 38.473; TS 37.483; TS
//!   38.423), and confirms one on Xn.
//! - `control_records`: A CU-CP keeps the units that are set up, its terminals, its requests and replies; a run looks at these.
#![tactic(auto)]

pub mod control_actions;
pub mod control_contexts;
pub mod control_records;
pub mod control_requests;
pub mod status_copies;
