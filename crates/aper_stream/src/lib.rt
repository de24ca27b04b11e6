//! A decoder of aligned PER (ITU-T X.691) whose octets come in pieces: `Decoder`.
//!
//! - `string_turns`: A turn inside a string takes one of its fields, and takes nothing again for the next one.
//! - `resuming`: A turn reads as far as the octets that came go, and is taken again when more come.
//! - `aper_resuming`: Proof steps: what the turns say of the octets of the pieces is so of the whole.
//! - `steps`: A step is a turn of `resuming`, but in a string it takes one field after another.
//! - `decoder`: `Decoder` takes pieces, and gives the value once its last octet is there, or the first wrong field.
#![tactic(auto)]

pub mod aper_resuming;
pub mod decoder;
pub mod resuming;
pub mod steps;
pub mod string_turns;
