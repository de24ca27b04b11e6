//! What is asked of objects, lists and containers of JSON as a whole, and the heads of information elements and of messages.

pub mod contents;
pub mod heads;
pub mod members;
pub mod wholes;
