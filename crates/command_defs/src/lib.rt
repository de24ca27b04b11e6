//! Definitions alone, and the types that they speak of: what the program answers, and what holds of
//! each of its words. No code stands here; the contract of each word, and of the whole program,
//! cites these.
#![tactic(auto)]

pub mod input_defs;

/// What the program answers.
#[derive(Clone, Copy, Debug, PartialEq, Eq)]
pub struct Status {
    pub code: u8,
    pub place: u64,
    pub reason: u16,
}

/// The ends that each word has beside its own.
#[derive(Clone, Copy, PartialEq, Eq)]
pub enum CommonEnd {
    /// A read failed, after so many bytes.
    ReadFault { taken: u64 },
    /// The input is longer than 16,777,216 bytes.
    TooLong,
    /// A write failed.
    WriteFault,
    /// Out of memory.
    Memory,
}
