//! Messages of F1AP (TS 38.473) as values of the profile's PDU, and back.
#![tactic(auto)]

mod codes;
pub mod octets;
pub mod reading;
pub mod writing;
