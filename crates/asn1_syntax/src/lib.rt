//! The types and assignments of ASN.1 modules (X.680, in the part of it that this project reads): how they are kept, and how they are read.
//!
//! - `types`: Types are read from items and kept as a tree.
//! - `assignments`: Assignments are read: types, sets of information elements and sets of procedures.
#![tactic(auto)]

pub mod assignments;
pub mod types;
