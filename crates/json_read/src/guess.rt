//! What value a line most likely shows, if it is written as values are printed. A guess promises nothing: whoever takes it prints it again
//! and compares.

mod scan;
mod simple;
mod values;

pub use values::likely_value;
