//! The pool of packets: one region of blocks of equal size, made once, and quotas of it for bearers. A packet is read, parked
//! and given up by its reference.
#![tactic(auto)]

mod accounts;
mod contents;
pub mod pool;
mod region;

pub use accounts::{QuotaError, QuotaUsed};
pub use pool::{Key, Pool, Ref};
pub use region::BLOCK;
