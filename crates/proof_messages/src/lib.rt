//! Proof steps of messages as values: their elements in order, and what is refused.
//!
//! - `message_elements`: The elements of a set stand in order, and what is read from fields and written again is the same.
//! - `message_refusals`: The types of the profile's PDUs and tokens are within the bounds, and each set leaves an id, so that refused
//!   octets go wrong by loose layouts.
#![tactic(auto)]

pub mod message_elements;
pub mod message_refusals;
