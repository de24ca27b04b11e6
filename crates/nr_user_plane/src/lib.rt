//! NR user plane frames on F1-U (after TS 38.425, 5.5), in the octets of this project's profile.
#![tactic(auto)]

pub mod frames;
pub mod laws;
pub mod ranges;

pub use frames::{Frame, FrameError, decode, encode};
pub use ranges::Ranges;
