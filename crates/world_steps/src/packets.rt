//! Events of packets in a run of the whole base station.

pub mod gets;
pub mod radio;
