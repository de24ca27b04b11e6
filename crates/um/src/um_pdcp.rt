//! The receiving entity of an unacknowledged bearer, with its reordering timer (TS 38.323, 5.2.2).

pub mod rx;
pub mod stored;

pub use um_defs::types::error::UmError;
pub use um_defs::types::out::{Out, Outs};
