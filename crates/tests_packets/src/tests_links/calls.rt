//! What calls of links answer, in a form that rows can name.

use gnb_types::items::Memory;
use gnb_types::keys::EntityKey;
use gnb_types::names::{BearerId, Dir, Gnb, NodeId, UeId};
use gnb_types::octets::Octets;
use links::error::LinkError;
use links::items::Item;
use std::alloc::Global;

pub const DU: NodeId = NodeId::Du(Gnb::A, 1);

pub const UP: NodeId = NodeId::CuUp(Gnb::B, 2);

/// The bearer and direction of all items.
pub const KEY: EntityKey = EntityKey {
    ue: UeId(1),
    bearer: BearerId(1),
    dir: Dir::Dl,
};

/// What a call answers.
#[derive(Clone, Copy, PartialEq, Eq)]
pub enum Answer {
    Done,
    Is(bool),
    Number(u64),
    /// An item: its COUNT, and its octet.
    Item(Option<u32>, Option<u8>),
    Refused(LinkError),
    Place(Option<(NodeId, u32)>),
    /// How many items stand there, and the least COUNT that one shows.
    Standing(u64, Option<u32>),
    /// A control message: its ends, its terminal, and its octet.
    Message(NodeId, NodeId, u8, Option<u8>),
    Least(Option<u32>),
}

/// An item of one octet.
pub fn item(alloc: Global, count: Option<u32>, octet: u8) -> Result<Item, Memory> {
    Ok(Item {
        key: KEY,
        count,
        content: Octets::one(alloc, octet)?,
    })
}

/// An item that a call shows, or why it shows none.
pub fn shown(answer: Result<&Item, LinkError>) -> Answer {
    match answer {
        Ok(item) => Answer::Item(item.count, item.content.as_slice().first().copied()),
        Err(error) => Answer::Refused(error),
    }
}

/// An item that a call gives, or why it gives none.
pub fn given(answer: Result<Item, LinkError>) -> Result<Answer, Memory> {
    match answer {
        Ok(item) => Ok(shown(Ok(&item))),
        Err(error) => refused(error),
    }
}

/// Out of memory is no answer.
pub fn refused(error: LinkError) -> Result<Answer, Memory> {
    match error {
        LinkError::Memory => Err(Memory::told()),
        error => Ok(Answer::Refused(error)),
    }
}
