//! Which part of a type, and which outcome of a message, an object of JSON has as a member; and the order of information elements.

pub mod order;
pub mod outcomes;
pub mod parts;
