//! The codec of units: control messages as the spellings of values of the profile's types (BASIC-PER aligned, ITU-T X.691), and back.
#![tactic(auto)]

mod codec;
mod encoding;
mod reading;

pub use codec::ProfileCodec;
