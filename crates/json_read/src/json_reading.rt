//! The value of a module's type that a tree of JSON shows, or the first demand of the type that fails.

mod values;

pub use values::value_in;
