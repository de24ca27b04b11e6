//! Turns of a round of `settle` in a run of the whole base station: of terminals, tunnels and bearers.

pub mod attached;
pub mod held;
pub mod orders;
pub mod tunnels;
