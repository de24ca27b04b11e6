//! The two legs of a bearer with PDCP duplication: what each holds, the oldest first.

mod items;
pub mod legs;

pub use legs::Legs;
