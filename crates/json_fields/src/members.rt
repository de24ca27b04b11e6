//! What a value of JSON is: a number, octets, bits, a name among names, or an object with members.

pub mod kinds;
pub mod members;
pub mod names;
