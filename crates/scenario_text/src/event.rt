//! The events of a script.

pub use crate::script_words::reason::TextReason;
use gnb_types::names::{BearerId, Dir, Gnb, NodeId, UeId};
use gnb_types::octets::Octets;
use gnb_types::plans::Plan;

/// What a line of a script makes happen.
#[derive(Drop)]
pub enum Event {
    /// A terminal is set up without messages: `static uU G P D N C Q`.
    Static {
        plan: Plan,
    },
    /// The units that aren't set up begin to be: `start`.
    Start,
    /// A CU-CP begins to attach a terminal: `attach uU G P D N C Q`.
    Attach {
        plan: Plan,
    },
    /// A packet is offered at the core (`dl`) or at the terminal (`ul`): `offer uU bB DIR HEX`.
    Offer {
        ue: UeId,
        bearer: BearerId,
        dir: Dir,
        packet: Octets,
    },
    /// The oldest item of a tunnel is given to its end: `get NODE/TEID`.
    Get {
        end: NodeId,
        teid: u32,
    },
    /// The oldest uncarried item of a radio is carried to its receiver: `air uU bB DIR`.
    Air {
        ue: UeId,
        bearer: BearerId,
        dir: Dir,
    },
    /// The oldest carried item of a radio is confirmed to its sender: `ack uU bB DIR`.
    Ack {
        ue: UeId,
        bearer: BearerId,
        dir: Dir,
    },
    /// A control message is given to its receiver: `give #M`.
    Give {
        message: u32,
    },
    /// A control message is no longer in flight: `lose #M`.
    LoseMessage {
        message: u32,
    },
    /// The oldest item of a tunnel is lost: `lose NODE/TEID`.
    LoseItem {
        end: NodeId,
        teid: u32,
    },
    /// A CU-UP asks for a delivery status: `poll uU bB`.
    Poll {
        ue: UeId,
        bearer: BearerId,
    },
    /// The control messages in flight are given, again and again: `pump`.
    Pump,
    /// Each node acts on a tick: `tick`.
    Tick,
    /// A radio fails: `fail uU`.
    Fail {
        ue: UeId,
    },
    /// A terminal arrives where it was sent: `arrive uU`.
    Arrive {
        ue: UeId,
    },
    /// A terminal asks its home DU for re-establishment: `return uU`.
    Return {
        ue: UeId,
    },
    /// A handover begins: `handover uU G P D`.
    Handover {
        ue: UeId,
        gnb: Gnb,
        up: u8,
        du: u8,
    },
    /// The source cancels a handover: `cancel uU`.
    Cancel {
        ue: UeId,
    },
    /// A terminal is released: `release uU`.
    Release {
        ue: UeId,
    },
    /// Is a bearer quiet: `ask uU bB`.
    Ask {
        ue: UeId,
        bearer: BearerId,
    },
    /// All is brought to rest: `settle`.
    Settle,
    /// Bytes are given to a node as a control message of another: `inject FROM TO HEX`.
    InjectMessage {
        from: NodeId,
        to: NodeId,
        bytes: Octets,
    },
    /// Bytes are given to the end of a tunnel as an item: `inject NODE/TEID HEX`.
    InjectItem {
        end: NodeId,
        teid: u32,
        bytes: Octets,
    },
}

/// The first word of an event.
#[derive(Clone, Copy)]
pub enum Keyword {
    Static,
    Start,
    Attach,
    Offer,
    Get,
    Air,
    Ack,
    Give,
    Lose,
    Poll,
    Pump,
    Tick,
    Fail,
    Arrive,
    Return,
    Handover,
    Cancel,
    Release,
    Ask,
    Settle,
    Inject,
}
