//! What a CU-UP keeps of a bearer.

ghost use Rattle.std.specs.Prelude.{◌≡◌, ◌+◌, ◌≤◌, true, None, Some, if◌then◌else◌, IfOk};
ghost use Rattle.unit_defs.specs.CuUpBearers.{made, teids_of_bearer};
ghost use Rattle.cu_up_bearer.specs.bearers.Bearers.{kept, IsOf};

use crate::downlink::DownSide;
use crate::tunnels::{Frames, Hop, Scope};
use gnb_types::items::{Items, Memory};
use gnb_types::keys::EntityKey;
use gnb_types::names::Dir;
use pdcp_bearers::ue_bearers::{Receiver as Receiving, Sender as Sending};
use std::alloc::Global;

/// What a CU-UP keeps of a bearer. Of the tunnels that end here N3 and the uplinks are there while they are open; the two of forwarding
/// stay open as long as the context.
#[derive(Drop)]
pub struct Bearer {
    pub n3: Option<u32>,
    pub uplinks: Items<u32>,
    pub forward_down: Option<u32>,
    pub forward_up: Option<u32>,
    /// Downlink: the entity with the packets that wait for a COUNT, and its frames.
    pub down: DownSide,
    /// Uplink: the entity.
    pub receiving: Receiving,
    /// Of the hop from the source: the next COUNT that the source would have given, and which of its two tunnels have ended.
    pub dl_next: u32,
    pub down_ended: bool,
    pub up_ended: bool,
    /// While frozen: the hop to the target, whether a loss was reported, and the COUNTs that came.
    pub hop: Option<Hop>,
    pub loss_while_frozen: bool,
    pub taken_while_frozen: Items<u32>,
}

/// The TEID of a forwarding tunnel, so many after the first one: only a target has it.
fn forwarding_teid(target: bool, first: u32, after: u32) -> Option<u32>
    requires { target ≡ true → first + after ≤ 4294967295 }
    ensures { result ≡ (if target then Some (first + after) else None) }
{
    if target { Some(first + after) } else { None }
}

impl Bearer {
    /// A bearer of a new context, with TEIDs from `first` on: of a target four, else two. It takes the blocks for its packets.
    #[tactic(auto, unfolding(unit_defs::specs::CuUpBearers::made))]
    pub fn new(alloc: Global, at: &Scope, target: bool, first: u32) -> Result<Bearer, Memory>
        requires least { 4 ≤ at.now.quota }
        requires most { at.now.quota ≤ 4096 }
        requires teids { first + teids_of_bearer target ≤ 4294967296 }
        ensures made { IfOk result (λ b. kept b ≡ made target first) }
        ensures of { IfOk result (λ b. IsOf at.now b) }
    {
        let down_key = EntityKey {
            ue: at.ue,
            bearer: at.bearer,
            dir: Dir::Dl,
        };
        let up_key = EntityKey {
            ue: at.ue,
            bearer: at.bearer,
            dir: Dir::Ul,
        };
        let sending = Sending::new(alloc, down_key, at.sn, at.quota)?;
        let receiving = Receiving::new(alloc, up_key, at.sn, at.quota)?;
        let uplinks = Items::one(alloc, first + 1)?;
        let frames = Frames {
            downlink: None,
            restart: false,
        };
        Ok(Bearer {
            n3: Some(first),
            uplinks,
            forward_down: forwarding_teid(target, first, 2),
            forward_up: forwarding_teid(target, first, 3),
            down: DownSide { sending, frames },
            receiving,
            dl_next: 0,
            down_ended: false,
            up_ended: false,
            hop: None,
            loss_while_frozen: false,
            taken_while_frozen: Items::new(alloc),
        })
    }
}
