//! What a run consists of.

use core_node::CoreNode;
use run_links::network::Network;
use run_units::units::Units;
use std::alloc::Global;
use unit_messages::MessageCodec;

/// The units of a run, its core, and what it keeps beside them.
#[derive(Drop)]
pub struct RunState<U: Units<C>, C: MessageCodec> {
    pub alloc: Global,
    pub codec: C,
    pub units: U,
    pub core: CoreNode,
    pub network: Network,
}
