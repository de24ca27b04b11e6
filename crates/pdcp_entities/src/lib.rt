//! The sending and the receiving entity of PDCP (TS 38.323, 5.2): what is numbered and awaits its confirmation, and what is
//! stored until it is delivered in order. Packets are parked in a pool.
#![tactic(auto)]

mod bits;
mod counts;
mod freeing;
mod ring;
pub mod rx;
pub mod tx;

pub use rx::{Ahead, Rx, Taken};
pub use tx::{NumberError, OutsideWindow, Tx};
