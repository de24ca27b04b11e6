//! The aligned variant of the packed encoding rules (BASIC-PER, ITU-T X.691): values of a module's types, the one spelling of each,
//! and where other octets go wrong.
#![tactic(auto)]

mod decoder;
pub mod encoding;
mod error;
pub mod measures;
pub mod measuring;
mod path;
pub mod value_checks;
pub mod writing;

pub use crate::encoding::encode;
pub use crate::value_checks::{is_value, spelled_length};
pub use aper_defs::Reason;
pub use aper_values::value::{Element, Ie, Ies, OptValues, Value, Values};
pub use decoder::decode;
pub use error::DecodeError;
pub use path::path_text;
