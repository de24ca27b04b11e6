//! The text of a script of one bearer with duplication: the events that it may have, and the lines that they print.

pub mod keyword;
pub mod print;
pub mod read;
