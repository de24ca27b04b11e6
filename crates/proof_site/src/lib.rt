//! Proof steps of the product's units: where one holds what it is given, or refuses an event, all stays.
//!
//! - `lone_units`: A unit that holds or refuses puts only that, and its record stays.
//! - `leaves`: Units that follow the tables leave all as it was where they hold what they are given or refuse an event, as long as their tables
//!   are in order.
#![tactic(auto)]

pub mod leaves;
pub mod lone_units;
