//! What a script of one unacknowledged bearer does.

use gnb_types::octets::Octets;

/// An event. Messages are numbered from 1 on, in the order in which they were put.
#[derive(Drop)]
pub enum UmEvent {
    /// A packet is numbered, and put on the link.
    Offer { packet: Octets },
    /// The message is taken, and leaves the link.
    Give { number: u32 },
    /// The message is taken, and stays on the link.
    Again { number: u32 },
    /// The message leaves the link.
    Lose { number: u32 },
    Tick,
    Ask,
}
