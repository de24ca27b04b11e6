//! The procedure with the core, by its code in the profile.

/// Path Switch Request (TS 38.413, 8.4.4)
pub const PATH_SWITCH: u8 = 1;
