//! Proof steps of values as JSON: what JSON shows of each type, what is wrong with other JSON, and that what is printed is read again.
//!
//! - `values`: Texts, numbers, types without types inside, and SEQUENCE.
//! - `choices`: CHOICE, and what information elements and messages hold.
//! - `lawful`: JSON shows a value of a type exactly where no demand of the type fails.
//! - `shown`: What is printed of a value is JSON of that value, and read again is the value.
//! - `floats`: No number that is printed is kept as a float.
//! - `order`: The members of each printed object stand in the order of their keys.
//! - `types`: A type of a module with its names is what its definition says.
//! - `modules`: The types of a module without their names have bounds, and JSON of them shows values.
//! - `again`: What is printed of a value of a module's type is read again as that value.
#![tactic(auto)]

pub mod again;
pub mod choices;
pub mod floats;
pub mod lawful;
pub mod modules;
pub mod order;
pub mod shown;
pub mod types;
pub mod values;
