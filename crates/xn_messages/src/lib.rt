//! Messages of XnAP (TS 38.423), in both versions of the profile, as values of the profile's PDU, and back.
#![tactic(auto)]

mod additions;
mod codes;
pub mod reading;
pub mod writing;
