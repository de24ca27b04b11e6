//! The bag of control messages, and what links refuse.

pub mod bag;
pub mod error;
