//! What a row says.

use gnb_types::items::Items;
use gnb_types::names::NodeId;
use gnb_types::reasons::{CauseName, DropReason, RefuseReason};
use unit_messages::Message;

/// One thing that a row says.
#[derive(Drop)]
pub enum Action {
    /// A request, which may wait; its deadline in ticks, and whether the attempt awaits the answer.
    Ask {
        to: NodeId,
        message: Message,
        deadline: Option<u16>,
        awaited: bool,
    },
    /// A Handover Cancel, which doesn't wait.
    Cancel {
        to: NodeId,
        message: Message,
    },
    /// The reply to the request that was just taken.
    Reply {
        to: NodeId,
        message: Message,
    },
    /// The reply to a request that was taken earlier.
    ReplyLate {
        to: NodeId,
        instance: u32,
        message: Message,
    },
    /// A message without an answer.
    Send {
        to: NodeId,
        message: Message,
    },
    /// The procedure ended without success.
    Fail(CauseName),
    Ignore(DropReason),
    Refuse(RefuseReason),
    /// No attempt awaits the answers of what waits any more.
    Forget,
}

/// What a row says, in order.
pub type Actions = Items<Action>;

/// The instance of a request that has none yet.
pub const NO_INSTANCE: u32 = 0;

/// The number of the counter of epochs.
pub const EPOCHS: u8 = 5;
