//! The lines of a transcript.

use crate::event::Event;
use gnb_types::names::{BearerId, Dir, NodeId, UeId};
use gnb_types::octets::Octets;
use gnb_types::reasons::{CauseName, DropReason, HeldReason, RefuseReason};

/// A tunnel, named by its end, or the radio of a bearer, a direction and an epoch.
#[derive(Clone, Copy)]
pub enum Link {
    Tunnel {
        end: NodeId,
        teid: u32,
    },
    Radio {
        ue: UeId,
        bearer: BearerId,
        dir: Dir,
        epoch: u32,
    },
}

/// What a line shows of an item: its bearer and direction, the COUNT that the runner keeps beside it, and its bytes.
#[derive(Clone, Drop)]
pub struct Item {
    pub ue: UeId,
    pub bearer: BearerId,
    pub dir: Dir,
    pub count: Option<u32>,
    pub bytes: Octets,
}

/// A control message, by its number.
#[derive(Drop)]
pub struct Message {
    pub number: u32,
    pub from: NodeId,
    pub to: NodeId,
    /// The number of the terminal that it belongs to, or 0.
    pub ue: u8,
    pub bytes: Octets,
}

/// A line of a transcript.
#[derive(Drop)]
pub enum OutLine {
    /// The event, as it was read, with upper-case hexadecimal digits: `> EVENT`.
    Happens {
        event: Event,
    },
    /// An item is put on a link: `put LINK uU bB DIR C HEX`.
    Put {
        link: Link,
        item: Item,
    },
    /// An item is taken from a link: `got LINK uU bB DIR C HEX`.
    Got {
        link: Link,
        item: Item,
    },
    /// A control message is put: `put #M FROM TO uU HEX`.
    PutMessage {
        message: Message,
    },
    /// A control message is given: `got #M FROM TO uU HEX`.
    GotMessage {
        message: Message,
    },
    /// A packet is delivered: `deliver uU bB DIR C HEX`.
    Deliver {
        ue: UeId,
        bearer: BearerId,
        dir: Dir,
        count: u32,
        packet: Octets,
    },
    /// Items of a link were lost or discarded: `lost LINK N`.
    Lost {
        link: Link,
        items: u64,
    },
    /// A control message was lost: `lost #M 1`.
    LostMessage {
        message: u32,
    },
    /// A unit ignored its input: `drop NODE REASON`.
    Drop {
        node: NodeId,
        reason: DropReason,
    },
    /// The item at the head of a link stays there: `held LINK REASON`.
    Held {
        link: Link,
        reason: HeldReason,
    },
    /// A procedure ended without success: `failed NODE uU CAUSE`.
    Failed {
        node: NodeId,
        ue: UeId,
        cause: CauseName,
    },
    /// A bearer is quiet, and so many packets were delivered: `quiet uU bB DL UL`.
    Quiet {
        ue: UeId,
        bearer: BearerId,
        downlink: u64,
        uplink: u64,
    },
    /// A bearer isn't quiet: `busy uU bB`.
    Busy {
        ue: UeId,
        bearer: BearerId,
    },
    /// Every bearer is quiet after so many rounds: `settled R`.
    Settled {
        rounds: u64,
    },
    /// Some bearer isn't quiet after so many rounds: `unsettled R`.
    Unsettled {
        rounds: u64,
    },
    /// The event can't apply, and changes nothing: `refused REASON`.
    Refused {
        reason: RefuseReason,
    },
    /// More numbers of a bearer are outstanding than half their space: `outstanding uU bB DIR SPAN W`.
    Outstanding {
        ue: UeId,
        bearer: BearerId,
        dir: Dir,
        span: u64,
        window: u32,
    },
    /// The last line of a run that came to its end, with the number of its events: `end N`.
    End {
        events: u64,
    },
    /// The last line of a run that was stopped: `stop CODE PLACE REASON`.
    Stop {
        code: u8,
        place: u64,
        reason: u16,
    },
}
