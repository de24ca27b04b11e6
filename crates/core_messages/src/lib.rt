//! Messages of a CU-CP with the core, in place of those of NGAP (TS 38.413), as values of the profile's PDU, and back.
#![tactic(auto)]

mod codes;
pub mod reading;
pub mod writing;
