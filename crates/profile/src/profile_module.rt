//! The profile's module as a value: the one that its text gives, and which other modules have the same types.

mod agreement;
mod built_in;
mod members;
mod names;
mod plain;
mod sets;
mod types;

pub use agreement::{AgreeError, agrees};
pub use built_in::{Profile, builtin, builtin_2};
