//! What is printed of one unacknowledged bearer.

use gnb_types::octets::Octets;
use gnb_types::reasons::RefuseReason;

/// A line after an event.
#[derive(Drop)]
pub enum UmLine {
    /// A message with the PDU of a COUNT.
    Put {
        number: u32,
        count: u32,
        pdu: Octets,
    },
    Got {
        number: u32,
        count: u32,
        pdu: Octets,
    },
    Lost {
        number: u32,
    },
    Deliver {
        count: u32,
        packet: Octets,
    },
    /// The packet came after the timer.
    DropLate,
    DropDuplicate,
    /// The packet is too far ahead: the message stays on the link.
    Held {
        number: u32,
    },
    Waiting {
        deliv: u32,
        next: u32,
        stored: u32,
    },
    Refused {
        reason: RefuseReason,
    },
    /// How many COUNTs are outstanding, and how many may be.
    Outstanding {
        span: u32,
        window: u32,
    },
}
