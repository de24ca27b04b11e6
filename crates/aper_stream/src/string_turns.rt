//! The turns of a decoder of aligned PER (ITU-T X.691) inside a string: each takes one field of it, and for the next one nothing that
//! has been taken is taken again.

mod field;
mod string;

pub use field::{Parts, StringField};
pub use string::StringLeft;
