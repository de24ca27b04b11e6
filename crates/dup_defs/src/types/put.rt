//! What a transmitting entity puts on its legs.

use crate::types::leg::Leg;
use gnb_types::items::Items;
use gnb_types::octets::Octets;

/// A PDU with its COUNT, for a leg.
#[derive(Drop)]
pub struct Put {
    pub leg: Leg,
    pub count: u32,
    pub bytes: Octets,
}

/// In the order in which they are put.
pub type Puts = Items<Put>;
