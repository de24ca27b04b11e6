//! What a receiving entity hands up.

use gnb_types::items::Items;
use gnb_types::octets::Octets;

/// A packet with its COUNT.
#[derive(Drop)]
pub struct Out {
    pub count: u32,
    pub packet: Octets,
}

/// Packets in the order in which they are handed up.
pub type Outs = Items<Out>;
