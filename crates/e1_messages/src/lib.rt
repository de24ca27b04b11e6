//! Messages of E1AP (TS 37.483) as values of the profile's PDU, and back.
#![tactic(auto)]

mod codes;
pub mod octets;
pub mod reading;
pub mod writing;
