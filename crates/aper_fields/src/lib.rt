//! The fields of aligned PER, put one after another (ITU-T X.691).
#![tactic(auto)]

pub mod contents;
pub mod counts;
pub mod fields;
pub mod lengths;
pub mod members;
pub mod numbers;
pub mod runs;
pub mod strings;
pub mod widths;
