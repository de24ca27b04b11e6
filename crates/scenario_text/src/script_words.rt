//! The words of a line: one blank between two of them, and what a word means at its place.

pub mod forms;
pub mod reason;
pub mod words;
