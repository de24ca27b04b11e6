//! What aligned PER has before and around a value: numbers, indices, lengths and open types (ITU-T X.691), asked at a place.

mod lengths;
mod numbers;
mod steps;

pub use lengths::{ask_count, ask_index};
pub use numbers::{ask_extension, ask_integer, ask_number};
pub use steps::{ask_aligned, ask_closing, ask_flag, ask_one, ask_opening, ask_run};
