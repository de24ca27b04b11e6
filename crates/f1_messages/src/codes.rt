//! The procedures of F1AP, by their codes in the profile.

pub const F1_SETUP: u8 = 1;

pub const UE_CONTEXT_SETUP: u8 = 2;

pub const UE_CONTEXT_MODIFICATION: u8 = 3;

pub const UE_CONTEXT_RELEASE: u8 = 4;

pub const DL_RRC_MESSAGE_TRANSFER: u8 = 5;

pub const UL_RRC_MESSAGE_TRANSFER: u8 = 6;
