//! The procedures of XnAP, by their codes in the profile.

pub const HANDOVER_PREPARATION: u8 = 1;

pub const SN_STATUS_TRANSFER: u8 = 2;

pub const HANDOVER_CANCEL: u8 = 3;

pub const UE_CONTEXT_RELEASE: u8 = 4;

pub const TRANSPORT_CONFIRM: u8 = 5;
