//! Definitions alone: the values that stand for messages and tokens, and what is heard in a value.
#![tactic(auto)]

pub mod profile_defs;
