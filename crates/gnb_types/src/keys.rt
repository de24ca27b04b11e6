//! The keys of tables, each in the order in which its tables are walked.

use crate::names::{BearerId, Dir, NodeId, UeId};

/// The requests of a unit to a peer, or from one, for a terminal; `ue` is 0 where they are for none.
#[derive(Clone, Copy, PartialEq, Eq, PartialOrd, Ord)]
pub struct Channel {
    pub ue: u8,
    pub peer: NodeId,
}

/// The end of a tunnel.
#[derive(Clone, Copy, PartialEq, Eq, PartialOrd, Ord)]
pub struct TunnelEnd {
    pub node: NodeId,
    pub teid: u32,
}

/// A bearer of a terminal in one direction.
#[derive(Clone, Copy, Debug, PartialEq, Eq, PartialOrd, Ord)]
pub struct EntityKey {
    pub ue: UeId,
    pub bearer: BearerId,
    pub dir: Dir,
}
