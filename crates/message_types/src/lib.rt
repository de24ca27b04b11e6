//! The messages that units exchange (TS 38.473, 37.483, 38.423, and the profile), and the tokens of RRC, as types.
//!
//! A message has its information elements as fields; what is optional is an `Option`. What stands for a container, the
//! spelling of a token, is a parameter: its octets in a message that is read or written, the token itself where a message is
//! looked at as a whole. A terminal is a number from 1 to 16, and an instance distinguishes the requests of one initiator to one
//! responder for one terminal.
#![tactic(auto)]

mod e1;
mod f1;
mod rrc;
mod xn;

pub use e1::E1Message;
pub use f1::{F1, F1Message};
pub use rrc::Token;
pub use xn::{CoreMessage, XnMessage};
