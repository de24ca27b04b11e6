//! What a CU-UP keeps of a terminal (TS 37.483, 8.3; TS 38.401, 6.1.2): its bearers, and what they share. Each order of control goes to
//! its bearers one after another; an item or a poll to one of them.

pub mod answers;
pub mod context;
pub mod ending;
pub mod items;
pub mod orders;

pub use context::{Context, ContextSetup};
