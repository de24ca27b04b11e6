//! The parts of values as JSON has them: members, simple values, and the types that say which are there.
//!
//! - `members`: A JSON value is a number, octets, bits, a name among names, or an object with members.
//! - `types`: A type follows its names, and says which names JSON shows and what its set holds.
//! - `simple`: A type without types inside shows a value, or says what is wrong with the JSON.
//! - `parts`: An object's member says which part of a type, or which outcome of a message, it has; information elements have an order.
#![tactic(auto)]

pub mod members;
pub mod parts;
pub mod simple;
pub mod types;
