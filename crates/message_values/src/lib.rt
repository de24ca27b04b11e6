//! Fields of messages as values of the profile's types, and back (ITU-T X.680; TS 38.413, 9.4). What a message has, and in which order, is
//! said by the crates of the interfaces; here is what they share: elements by name, values of fields, the value of a message from its
//! elements, and what is found in one.
#![tactic(auto)]

pub mod elements;
pub mod error;
pub mod fields;
pub mod found;
pub mod places;
