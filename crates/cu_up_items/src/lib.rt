//! What a bearer of a CU-UP does with an item of a tunnel.
//!
//! - `packets`: An item down that isn't held: a packet without or with a number, a status report, or a delivery status (TS 38.323, 5.2,
//!   5.4.2; TS 38.425, 5.4; TS 38.300, 9.2.3.2).
//! - `uplinks`: A packet up that isn't held, from an F1-U uplink or from the hop's uplink tunnel (TS 38.323, 5.2.2; TS 38.300, 9.2.3.2.3).
//! - `ends`: The End Markers of N3, of uplinks, and of the hop from the source (TS 38.300, 9.2.3.2.3).
//! - `items`: An item is read as its tunnel's link lays it out; the bearer holds it while it can't take it, or takes it (TS 38.300,
//!   9.2.3.2; TS 38.425, 5.4; TS 38.323, 5.2).
#![tactic(auto)]

pub mod ends;
pub mod items;
pub mod packets;
pub mod uplinks;
