//! Values of ASN.1 types, whatever their type.
#![tactic(auto)]

pub mod make;
pub mod types;
pub mod value;
