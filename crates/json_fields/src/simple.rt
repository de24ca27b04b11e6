//! Values that JSON shows of the types without types inside, or what is wrong with it.

pub mod enumerated;
pub mod past;
pub mod refusal;
pub mod simple;
