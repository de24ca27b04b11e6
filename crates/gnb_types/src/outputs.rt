//! What a unit gives.

use crate::items::Items;
use crate::names::{BearerId, Dir, NodeId, UeId};
use crate::octets::Octets;
use crate::reasons::{CauseName, DropReason, HeldReason, RefuseReason};

/// Which COUNT stands beside an item that a unit puts on a link.
#[derive(Clone, Copy, PartialEq, Eq)]
pub enum Tag {
    Absent,
    /// The COUNT that the unit itself gives.
    Own(u32),
    /// That of the item which the unit has just taken.
    Same,
}

/// One thing that a unit does in a step.
#[derive(Drop)]
pub enum Output {
    /// It puts a control message of this terminal, or of none where `ue` is 0.
    Control {
        to: NodeId,
        ue: u8,
        bytes: Octets,
    },
    /// It puts an item on a tunnel.
    Packet {
        to: NodeId,
        teid: u32,
        ue: UeId,
        bearer: BearerId,
        dir: Dir,
        count: Tag,
        bytes: Octets,
    },
    /// It puts an item on the radio of this epoch.
    Radio {
        ue: UeId,
        bearer: BearerId,
        dir: Dir,
        epoch: u32,
        count: Tag,
        bytes: Octets,
    },
    /// It delivers a packet.
    Deliver {
        ue: UeId,
        bearer: BearerId,
        dir: Dir,
        count: u32,
        packet: Octets,
    },
    /// It ignores its input.
    Drop(DropReason),
    /// It leaves its input at the head of the link.
    Held(HeldReason),
    /// It gave this TEID.
    Opened(u32),
    /// It gave this TEID back.
    Closed(u32),
    /// A procedure of this terminal ended without success.
    FailedUe {
        ue: UeId,
        cause: CauseName,
    },
    /// The event that asked for this can't apply.
    No(RefuseReason),
}

/// What a unit does in a step, in order. Contracts see the list.
pub type Outputs = Items<Output>;
