//! Why no JSON is written.

use gnb_types::octets::Memory;
use std::alloc::AllocError;
use std::str::Utf8Error;

/// Why no JSON is written: memory ran out, a name or a text isn't UTF-8, or a number has more than 64 bits.
#[derive(Clone, Copy, Debug, PartialEq, Eq)]
pub struct PrintError;

impl From<AllocError> for PrintError {
    fn from(_error: AllocError) -> PrintError {
        PrintError
    }
}

impl From<Memory> for PrintError {
    fn from(_error: Memory) -> PrintError {
        PrintError
    }
}

impl From<Utf8Error> for PrintError {
    fn from(_error: Utf8Error) -> PrintError {
        PrintError
    }
}
