//! The rows of a CU-CP, by procedure.
//!
//! - `control_rows`: An attach, a handover at its source, and releases (TS 38.401, 8.1, 8.2.1, 8.6; TS 38.423, 8.2).
//! - `control_targets`: A handover at its target, and what follows an arrival or a return (TS 38.401, 8.9; TS 38.423, 8.2).
#![tactic(auto)]

pub mod control_rows;
pub mod control_targets;
