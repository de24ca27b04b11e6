//! Values of aligned PER with no other one inside, read at a place (ITU-T X.691).

mod simple;

pub use simple::{
    read_bit_string, read_boolean, read_enumerated, read_integer, read_octet_string,
    read_printable_string,
};
