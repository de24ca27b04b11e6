//! JSON of values that have none inside, and of what stands round the others.

pub mod error;
pub mod objects;
pub mod simple;
pub mod texts;
