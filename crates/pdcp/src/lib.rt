//! PDCP (TS 38.323): its PDUs as octets, and the COUNT that a received number stands for.
#![tactic(auto)]

pub mod counts;
pub mod laws;
pub mod pdu;

pub use counts::near;
pub use pdu::{PACKET_LIMIT, Pdu, PduError, read_pdu, write_pdu, write_report};
