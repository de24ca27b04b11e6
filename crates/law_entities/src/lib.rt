//! Laws of what units stand on: requests and replies, the pool of packets, and PDCP entities.
//!
//! - `law_transactions`: A responder applies new requests alone, and an initiator takes each reply once.
//! - `pool`: The calls of a key in a pool are answered as if it were alone.
//! - `law_pdcp`: A number stands for one COUNT in its window; PDCP entities confirm and deliver as their definitions say.
#![tactic(auto)]

pub mod law_pdcp;
pub mod law_transactions;
pub mod pool;
