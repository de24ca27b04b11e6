//! Events of control messages and of all units in a run of the whole base station.

pub mod gives;
pub mod losses;
pub mod pumps;
pub mod turns;
