//! The containers that code and definitions share: a table in key order, a queue, and a shelf (a table over a slab).
#![tactic(auto)]

pub mod queue;
pub mod shelf;
pub mod table;
