//! Where a terminal is served, and what its bearers hold there.

use crate::bits::Bits;
use crate::items::Items;
use crate::names::{BearerId, Gnb, SnBits, UeId};

/// Where a terminal is to be served, and with which bearers.
#[derive(Clone, Copy, PartialEq, Eq)]
pub struct Plan {
    pub ue: UeId,
    pub gnb: Gnb,
    /// The number of the CU-UP.
    pub up: u8,
    /// The number of the DU.
    pub du: u8,
    pub sn: SnBits,
    /// Its bearers are 1 to this number.
    pub bearers: u8,
    /// How many blocks a bearer has in each direction.
    pub quota: u16,
}

/// The CU-UP that a tunnel leads to.
#[derive(Clone, Copy, PartialEq, Eq)]
pub struct Peer {
    pub gnb: Gnb,
    pub up: u8,
}

/// The tunnel of a bearer, by the TEID of its end.
#[derive(Clone, Copy, PartialEq, Eq)]
pub struct Tunnel {
    pub bearer: BearerId,
    pub teid: u32,
}

/// The SN status of a bearer (TS 38.423, 9.2.1.1): the next COUNT of the downlink, the first COUNT of the uplink that is missing, and
/// which of the COUNTs after that one were received.
#[derive(PartialEq, Drop)]
pub struct SnStatus {
    pub bearer: BearerId,
    pub dl_next: u32,
    pub ul_first: u32,
    pub ul_received: Option<Bits>,
}

/// A list of tunnels. Contracts see the list.
pub type TunnelList = Items<Tunnel>;

/// A list of SN statuses. Contracts see the list.
pub type StatusList = Items<SnStatus>;
