//! A place in octets of aligned PER with the open types around it, and the answers that stand there (ITU-T X.691).
#![tactic(auto)]

pub mod asking;
mod cursor;
mod error;
mod lengths;
mod numbers;
mod questions;
mod rows;
pub mod strings;

pub use cursor::{Cursor, Span};
pub use error::Unanswered;
pub use lengths::Extent;
pub use numbers::{bits_for, octets_for, signed_number};
pub use questions::{Question, Range, Role, RunUnit};
pub use rows::{find_row, mandatory_count};
