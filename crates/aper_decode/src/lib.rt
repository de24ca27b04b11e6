//! A decoder of aligned PER (ITU-T X.691), in small turns over a stack of the values that are being read.
#![tactic(auto)]

mod begin;
mod container;
mod decoder;
mod error;
mod goes_on;
mod list;
mod sequence;
mod simple;

pub use decoder::{decode, refused};
pub use error::DecodeError;
