//! The bearers of a terminal: what each sends and delivers (TS 38.323, 5.1.2, 5.2).
//!
//! - `ue_bearers`: A bearer keeps its uplink and its downlink, sends packets and delivers them.
//! - `ue_packets`: A terminal's packet rules say what a bearer numbers, sends and delivers, and what it says when the terminal connects (TS
//!   38.323, 5.1.2, 5.2, 5.4).
#![tactic(auto)]

pub mod ue_bearers;
pub mod ue_packets;
