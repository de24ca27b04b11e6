//! The contexts of terminals that are set up.

ghost use Rattle.std.specs.Prelude.{◌≡◌, ◌+◌, ◌≤◌, ◌^◌, length, true, IfOk};
ghost use Rattle.std.specs.List.Sorted.{IsStrictlySortedBy};
ghost use Rattle.gnb_types.specs.Orders.{ue_cmp, bearer_cmp};
ghost use Rattle.tables.specs.Tables.{find};
ghost use Rattle.unit_defs.specs.Messages.{bearers_of, are_first_bearers};
ghost use Rattle.unit_defs.specs.Du.{bearers_made, context_with, replaces};
ghost use Rattle.unit_defs.specs.octet_defs.Codec.{Codec, octet_way};
ghost use Rattle.unit_messages.specs.steps.Steps.{IsStep, step_after};
ghost use Rattle.du_contexts.specs.Tables.{OctetDu, with_tables};

use crate::bearers::{DuBearer, DuContext};
use crate::contexts::DuContexts;
use crate::downlinks::TEIDS;
use gnb_types::items::Memory;
use gnb_types::names::{BearerId, NodeId, SnBits, UeId};
use gnb_types::outputs::Outputs;
use gnb_types::plans::{Peer, Tunnel};
use std::alloc::Global;
use tables::table::Table;
use unit_messages::steps::StepError;

/// The bearers of a new context: uplinks to these tunnels, and downlink TEIDs from `next` on.
fn made(
    alloc: Global,
    up: NodeId,
    next: u32,
    uplinks: &[Tunnel],
) -> Result<Table<BearerId, DuBearer>, Memory>
    requires sorted { IsStrictlySortedBy bearer_cmp (bearers_of uplinks.now) }
    requires left { next + length uplinks.now ≤ 2 ^ 32 }
    ensures { IfOk result (λ bearers. bearers ≡ bearers_made up next uplinks.now) }
{
    let mut bearers = Table::new(alloc);
    let mut teid = u64::from(next);
    for tunnel in uplinks {
        let bearer = DuBearer {
            up,
            uplink: tunnel.teid,
            downlink: teid as u32,
            awaited: 0,
            gap: false,
        };
        bearers.put(tunnel.bearer, bearer)?;
        teid += 1;
    }
    Ok(bearers)
}

/// What a context is set up with: the epoch of its radio, the length of PDCP numbers, and the CU-UP at which its uplinks end.
#[derive(Clone, Copy)]
pub struct ContextSetup {
    pub epoch: u32,
    pub sn: SnBits,
    pub peer: Peer,
}

impl DuContexts {
    /// The terminal gets a context with these uplinks, which replaces the one that it has, if any.
    pub fn set_up(
        &mut self,
        alloc: Global,
        ue: UeId,
        setup: ContextSetup,
        uplinks: &[Tunnel],
        outputs: &mut Outputs,
    ) -> Result<(), StepError>
        requires { are_first_bearers (bearers_of uplinks.now) ≡ true }
        ensures { (codec : Codec) (r : OctetDu) → IsStep
            (step_after outputs.old
            (replaces (octet_way codec) ue (find ue_cmp self.old.contexts ue)
            (context_with (octet_way codec) (with_tables r self.old) setup.epoch uplinks.now setup.sn setup.peer) (with_tables r self.old)))
            outputs.new (with_tables r self.new) result }
    {
        if !self.has_teids(uplinks.len()) {
            return Err(StepError::Spent { counter: TEIDS });
        }
        let up = NodeId::CuUp(setup.peer.gnb, setup.peer.up);
        let bearers = made(alloc, up, self.next_teid(), uplinks)?;
        let context = DuContext {
            epoch: setup.epoch,
            sn: setup.sn,
            bearers,
        };
        self.replace(ue, context, outputs)
    }
}
