//! Definitions alone: the links of the whole base station (TS 38.401, 6.1.2), and what stands on them.
#![tactic(auto)]

use gnb_types::keys::EntityKey;
use gnb_types::names::NodeId;

/// A control message that was put: its ends, its terminal (0: none), and what stands for it.
#[derive(Drop)]
pub struct ControlMessage<M> {
    pub from: NodeId,
    pub to: NodeId,
    pub ue: u8,
    pub message: M,
}

/// An item of a tunnel or radio: its bearer and direction, the COUNT that stands beside it, if it shows one, and what stands for it.
#[derive(Drop)]
pub struct Item<X> {
    pub key: EntityKey,
    pub count: Option<u32>,
    pub content: X,
}
