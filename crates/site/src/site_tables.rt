//! The units of a run in tables, by their names: CU-UPs, DUs and terminals. A step of one of them is a step of its table.

pub mod names;
pub mod nodes;
pub mod terminals;
pub mod users;
