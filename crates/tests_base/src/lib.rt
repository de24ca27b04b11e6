//! Tests of the plain types, of the containers, and of bits, by public calls alone.
#![tactic(auto)]

pub mod asn1;
#[cfg(test)]
mod bits;
#[cfg(test)]
mod containers;
#[cfg(test)]
mod types;
