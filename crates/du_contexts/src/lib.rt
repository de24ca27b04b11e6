//! The contexts that a DU keeps of terminals, with their bearers and downlink tunnels, and what it does with packets (TS 38.401, 6.1.2;
//! TS 38.425, 5.4). Contracts say what each call does to the whole record of a DU, whatever else that keeps.
#![tactic(auto)]

pub mod bearers;
pub mod contexts;
pub mod downlinks;
pub mod making;
pub mod packets;
pub mod placing;
pub mod radio;
pub mod relays;
pub mod renewing;
