//! The tokens that stand for messages of RRC (TS 38.331), as values of the profile's type RrcToken, and back.
#![tactic(auto)]

mod alternatives;
pub mod reading;
pub mod writing;
