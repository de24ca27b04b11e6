//! What a bearer shares with the others of its context, and its names.

use gnb_types::names::{BearerId, SnBits, UeId};

/// What the bearers of a context share. A target has its packets from a source: it goes on once the SN status is there, and serves
/// once the terminal arrived. A released context keeps no packet, and passes on what still comes.
#[derive(Clone, Copy)]
pub struct Flags {
    pub target: bool,
    pub may_serve: bool,
    pub arrived: bool,
    pub frozen: bool,
    pub released: bool,
}

/// Whose order a bearer carries out.
#[derive(Clone, Copy)]
pub struct Scope {
    pub ue: UeId,
    pub bearer: BearerId,
    pub sn: SnBits,
    pub quota: u16,
    pub flags: Flags,
}
