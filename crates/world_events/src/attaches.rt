//! Events of a run of the whole base station by which a terminal comes.

pub mod attaches;
mod keeping;
pub mod setups;
