//! The transmitting entity of a bearer with PDCP duplication (TS 38.323, 5.2.1 and 5.11).

mod counts;
mod ending;
pub mod tx;

pub use dup_defs::types::error::DupError;
pub use dup_defs::types::put::{Put, Puts};
pub use ending::DupEnding;
