//! The ends of a bearer's tunnels at a CU-UP: the End Markers of N3, of uplinks, and of the hop from the source (TS 38.300, 9.2.3.2.3).

pub mod ending;
pub mod uplinks;
