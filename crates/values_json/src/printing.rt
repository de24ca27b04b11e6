//! The JSON that values of a module's types are printed as, written to a `json::Writer`.

mod values;

pub use values::write_value;
