//! The procedures of E1AP, by their codes in the profile.

pub const E1_SETUP: u8 = 1;

pub const BEARER_CONTEXT_SETUP: u8 = 2;

pub const BEARER_CONTEXT_MODIFICATION: u8 = 3;

pub const BEARER_CONTEXT_RELEASE: u8 = 4;
