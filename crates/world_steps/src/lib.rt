//! Steps of the whole base station: a unit is asked, its answer is carried out, and what the events look at in units.
#![tactic(auto)]

pub mod asked;
pub mod cause;
pub mod control_messages;
mod looks;
pub mod packets;
pub mod run_state;
mod steps;

pub use run_units::units::Units;
