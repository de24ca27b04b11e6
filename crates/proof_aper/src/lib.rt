//! Proof steps of aligned PER, for the laws of its spelling and the contracts of its decoders.
//!
//! - `answers`: The fields of a value at a place answer what is asked for its type, and give it.
//! - `places`: The fields of a value stand where their bits are.
//! - `values`: What answers the questions of a type is the layout of a value of it.
//! - `spelled`: Octets that spell a value of a type are read as it.
//! - `octets`: Octets are a value's one spelling, or no spelling; a test finds the types whose bounds hold.
//! - `pieces`: What was read of octets, or found wrong, stays so when more octets come.
//! - `loose`: A loose layout of a value answers what is asked for its type; loose layouts that agree so far have a next field.
//! - `alive`: Every right answer to what is asked for a type can be gone on with up to a value.
//! - `back`: What answers the questions of a type is a loose layout of a value of it.
//! - `refused`: Octets go wrong by the loose layouts of a type exactly where its questions are refused.
//! - `followed`: What is asked at a place goes on with the same answer when more octets come, whatever is asked after it.
#![tactic(auto)]

pub mod alive;
pub mod answers;
pub mod back;
pub mod followed;
pub mod loose;
pub mod octets;
pub mod pieces;
pub mod places;
pub mod refused;
pub mod spelled;
pub mod values;
