//! Laws of isolation: what a run keeps of a terminal (its projection) is what the terminal's own acts make of it, whatever others do.
//!
//! - `projections`: The projection of a terminal is defined, and a step of the core is one terminal's.
//! - `ue_projection`: A terminal's steps are its own.
//! - `du_projection`: A step of a DU is one terminal's.
//! - `cu_cp_projection`: A step of a CU-CP is one terminal's.
//! - `cu_up_projection`: A step of a CU-UP is one terminal's.
//! - `tick_projections`: A unit's tick is a step of each terminal, one beside another.
//! - `projection_owners`: A step of a CU-UP or DU whose open TEIDs are those that its contexts name leaves the other terminals' TEIDs too.
//! - `run_projections`: A unit's step in a run is for one terminal.
//! - `projection_arguments`: Terminals are coupled in a run by what is shared at a node, and by nothing else.
//! - `step_projections`: A run's step changes one terminal's projection at the units.
//! - `frame_of_steps`: A step that is one terminal's keeps what the run keeps of the others.
//! - `own_steps`: A step with what is for a terminal is that terminal's, and leaves the others.
//! - `own_events`: An event that is one terminal's leaves the others, step by step.
//! - `named_events`: An event that names a terminal leaves the others.
//! - `all_steps`: A step that is no business of a terminal leaves its whole projection.
//! - `run_ticks`: A tick in a run is a step of each terminal.
//! - `step_consistency`: One step of a terminal does the same in two states with the same projection.
//! - `equal_projections`: Two states with the same projection share the terminal's tunnels, ticks, and setup without messages.
//! - `two_runs`: After the same acts of a terminal its projection is the same in two runs.
#![tactic(auto)]

pub mod all_steps;
pub mod cu_cp_projection;
pub mod cu_up_projection;
pub mod du_projection;
pub mod equal_projections;
pub mod frame_of_steps;
pub mod named_events;
pub mod own_events;
pub mod own_steps;
pub mod projection_arguments;
pub mod projection_owners;
pub mod projections;
pub mod run_projections;
pub mod run_ticks;
pub mod step_consistency;
pub mod step_projections;
pub mod tick_projections;
pub mod two_runs;
pub mod ue_projection;
