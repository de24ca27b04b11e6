//! A decoder of aligned PER (ITU-T X.691) whose octets come in pieces.

mod decoder;
mod spot;
mod turns;

pub use decoder::{Decoder, Step, decode};
