//! Definitions alone, and the type that they speak of: how an input divides into the lines that are
//! read of it, and how reading it ends. No code stands here; the contract of each word of the
//! program cites these.

/// Why no further line is read.
#[derive(Clone, Copy, PartialEq, Eq)]
pub enum InputEnd {
    /// A read failed, after so many bytes.
    ReadFault { taken: u64 },
    /// The input is longer than 16,777,216 bytes.
    TooLong,
    /// Out of memory, in reading or in what is done with a line.
    Memory,
}
