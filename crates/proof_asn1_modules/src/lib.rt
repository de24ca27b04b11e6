//! Proof steps of modules that are read: each text has one reading or one fault, within the bounds.
//!
//! - `asn1_proof_module`: Each text has one reading or one fault, and a module keeps to the bounds of the profile.
//! - `ranks`: The types of a module have ranks, which fall from a type to each type that it leads to.
#![tactic(auto)]

pub mod asn1_proof_module;
pub mod ranks;
