//! The turns of radios in a round of `settle` of the whole base station.

pub mod radios;
pub mod turn;
