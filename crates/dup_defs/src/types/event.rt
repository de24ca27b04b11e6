//! What a script of one bearer with duplication does.

use crate::types::leg::{Leg, Mode};
use gnb_types::octets::Octets;

/// An event.
#[derive(Drop)]
pub enum DupEvent {
    /// A packet is offered to the transmitting entity.
    Offer { packet: Octets },
    /// The oldest item of the leg that isn't carried yet comes to the receiving entity.
    Carry { leg: Leg },
    /// The oldest carried item of the leg is confirmed, and leaves it.
    Confirm { leg: Leg },
    /// The leg loses all that it holds, and is down.
    Fail { leg: Leg },
    /// The leg is up again.
    Mend { leg: Leg },
    /// Packets go on these legs from here on.
    SetMode { mode: Mode },
    /// What the legs hold is carried and confirmed until they hold nothing.
    Drain,
    Ask,
}
