//! The units of a run as the product has them: those of both gNBs and the terminals, each of which is given its own inputs.
#![tactic(auto)]

pub mod site;
pub mod site_tables;
pub mod unit_set;

pub use site::Site;
