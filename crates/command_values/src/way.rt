//! Which way values go.

/// What a line is, and what it becomes.
#[derive(Clone, Copy, PartialEq, Eq)]
pub enum Way {
    /// JSON of a value becomes the hexadecimal digits of its octets.
    Encode,
    /// Hexadecimal digits of octets become the JSON of their value.
    Decode,
}
