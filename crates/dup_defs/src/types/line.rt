//! What is printed of one bearer with duplication.

use crate::types::leg::Leg;
use gnb_types::octets::Octets;

/// Why an event is refused.
#[derive(Clone, Copy, PartialEq, Eq)]
pub enum DupRefusal {
    /// The packet has more than 2,048 octets.
    Size,
    /// As many packets as the quota are unconfirmed or wait.
    Quota,
    /// The leg isn't up.
    Down,
    /// The leg holds no such item.
    Empty,
    /// The leg is up.
    Up,
    /// The mode is that one.
    Same,
}

/// A line after an event.
#[derive(Drop)]
pub enum DupLine {
    /// The PDU of a COUNT is put on a leg.
    Put { leg: Leg, count: u32, pdu: Octets },
    Got { leg: Leg, count: u32, pdu: Octets },
    Deliver { count: u32, packet: Octets },
    DropDuplicate,
    /// So many items are gone from a leg.
    Lost { leg: Leg, items: u32 },
    Refused { reason: DupRefusal },
    /// Nothing is under way, and so many packets were delivered.
    Quiet { delivered: u32 },
    Busy,
    /// How many COUNTs are outstanding, and how many may be.
    Outstanding { span: u32, window: u32 },
}
