//! The alternatives of RrcToken, by their places in the profile.

pub const COMMAND: u32 = 0;

pub const COMPLETE: u32 = 1;

pub const REESTABLISH: u32 = 2;

pub const ACCEPTED: u32 = 3;
