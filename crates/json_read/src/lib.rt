//! JSON is read as a value of a module's type, or the first demand of the type that fails is found.
//!
//! - `guess`: A line most likely shows this value, if it is written as values are printed.
//! - `wholes`: Objects, lists, containers, and the heads of information elements and messages are checked as a whole.
//! - `reading`: Proof steps: what is left of lists, components, additions and elements, and the choices of rows.
//! - `json_reading`: A tree of JSON is read as a value of a module's type.
#![tactic(auto)]

pub mod guess;
pub mod json_reading;
pub mod reading;
pub mod wholes;
