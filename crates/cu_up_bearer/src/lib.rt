//! One bearer of a CU-UP: what it keeps, sends and delivers, and the orders that reach it.
//!
//! - `tunnels`: A bearer puts frames to its DU (TS 38.425, 5.4), and packets on the hop to the target of a handover (TS 38.300, 9.2.3.2.3).
//! - `downlink`: Packets wait, get a COUNT, are sent in frames, and are held until they are confirmed (TS 38.323, 5.2.1).
//! - `bearers`: A bearer delivers uplink packets, and gives what it holds to the target of a handover (TS 38.401, 6.1.2; TS 38.323, 5.2; TS
//!   38.300, 9.2.3.2.3).
//! - `orders`: Control orders a further uplink, a switch, a freeze, an SN status, a resume and a release (TS 37.483, 8.3; TS 38.300,
//!   9.2.3.2).
#![tactic(auto)]

pub mod bearers;
pub mod downlink;
pub mod orders;
pub mod tunnels;
