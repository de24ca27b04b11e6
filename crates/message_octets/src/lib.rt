//! Messages of F1AP, E1AP, XnAP and the core, and tokens of RRC, as octets, and back: aligned PER (ITU-T X.691) of the values of the
//! profile's types.
#![tactic(auto)]

pub mod core_octets;
pub mod e1_octets;
mod error;
pub mod f1_octets;
pub mod token_octets;
pub mod xn_octets;

pub use error::MsgError;
