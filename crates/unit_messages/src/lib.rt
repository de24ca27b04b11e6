//! The control messages of all interfaces as one type, and what a unit asks of the codec that reads and spells them.
#![tactic(auto)]

mod codec;
mod kind;
pub mod lawful_codecs;
mod message;
pub mod steps;

pub use codec::{MessageCodec, encoded};
pub use kind::Kind;
pub use message::Message;
