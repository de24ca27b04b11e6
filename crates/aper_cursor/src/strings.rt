//! Strings of bits, octets and characters as they are asked, in one piece and in parts (ITU-T X.691).

mod strings;
mod units;

pub use strings::ask_string;
pub use units::Content;
