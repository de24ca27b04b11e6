//! The bearers of a terminal: what each keeps for its uplink and for its downlink (TS 38.323, 5.1.2, 5.2), and what is sent and
//! delivered for it.

mod blocks;
pub mod receiver;
pub mod sender;

pub use receiver::{Delivered, Receiver, Reception};
pub use sender::{Counted, Numbered, Sender};
