//! What a unit takes.

use crate::names::{BearerId, Dir, NodeId, UeId};
use crate::octets::Octets;
use crate::plans::Plan;

/// What a unit takes in one step.
#[derive(Drop)]
pub enum Input {
    /// A control message.
    Control {
        from: NodeId,
        bytes: Octets,
    },
    /// An item of a tunnel.
    Packet {
        teid: u32,
        bytes: Octets,
    },
    /// An item that a radio carried.
    Radio {
        ue: UeId,
        bearer: BearerId,
        dir: Dir,
        bytes: Octets,
    },
    /// An item that a radio carried before is confirmed to its sender.
    Confirm {
        ue: UeId,
        bearer: BearerId,
        dir: Dir,
        bytes: Octets,
    },
    /// A packet from above.
    Offer {
        ue: UeId,
        bearer: BearerId,
        packet: Octets,
    },
    Tick,
    Order(Order),
}

/// What an event of a script asks of a unit.
#[derive(Clone, Copy)]
pub enum Order {
    Start,
    Attach(Plan),
    Handover(Plan),
    Cancel(UeId),
    Release(UeId),
    Arrive(UeId),
    Return(UeId),
    Fail(UeId),
    Poll(UeId, BearerId),
}
