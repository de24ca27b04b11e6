//! Events of a run of the whole base station that give a unit an order.

pub mod handovers;
mod looks;
pub mod ordering;
pub mod releases;
pub mod terminals;
