//! What one bearer of a CU-UP puts on tunnels: frames to its DU (TS 38.425, 5.4), and what goes on a hop to the target of a handover
//! (TS 38.300, 9.2.3.2.3).

pub mod at;
pub mod frames;
pub mod hop;

pub use at::{Flags, Scope};
pub use frames::{DownlinkTunnel, Frames};
pub use hop::{Hop, ShownCount};
