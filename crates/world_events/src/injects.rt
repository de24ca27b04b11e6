//! Octets from outside in a run of the whole base station: they are given to a node where they don't decode.

mod decoding;
pub mod injects;
mod interfaces;
