//! Contexts of terminals whose radio is another one now.

ghost use Rattle.std.specs.Prelude.{◌≡◌, ◌+◌, ◌≤◌, ◌^◌, length, map, IfOk, option_copied};
ghost use Rattle.std.specs.List.Sorted.{IsStrictlySortedBy};
ghost use Rattle.std.specs.Map.{keys_of};
ghost use Rattle.gnb_types.specs.Orders.{ue_cmp, bearer_cmp};
ghost use Rattle.tables.specs.Tables.{find};
ghost use Rattle.unit_defs.specs.octet_defs.Codec.{Codec};
ghost use Rattle.unit_messages.specs.steps.Steps.{IsStep, step_after};
ghost use Rattle.unit_defs.specs.Du.{downlink_list};
ghost use Rattle.du_contexts.specs.Tables.{OctetDu, with_tables, downlinks_at};
ghost use Rattle.du_contexts.specs.Renewed.{renewed, uplink_of, anew_of};

use crate::bearers::{DuBearer, DuContext};
use crate::contexts::DuContexts;
use crate::downlinks::TEIDS;
use crate::packets::drop_input;
use gnb_types::items::{Items, Memory};
use gnb_types::names::{BearerId, NodeId, SnBits, UeId};
use gnb_types::outputs::Outputs;
use gnb_types::plans::{Tunnel, TunnelList};
use gnb_types::reasons::DropReason;
use std::alloc::Global;
use tables::table::Table;
use unit_messages::steps::StepError;

/// Where the uplink of a bearer goes.
#[derive(Clone, Copy)]
pub struct Uplink {
    pub bearer: BearerId,
    pub up: NodeId,
    pub teid: u32,
}

impl DuContext {
    fn sn(&self) -> SnBits
        ensures { result ≡ self.now.sn }
    {
        self.sn
    }

    /// Where its uplinks go, in the order of bearers.
    fn uplinks(&self, alloc: Global) -> Result<Items<Uplink>, Memory>
        ensures ok { IfOk result (λ uplinks. uplinks ≡ map uplink_of self.now.bearers) }
        ensures sorted { IsStrictlySortedBy bearer_cmp (keys_of self.now.bearers) }
    {
        let mut uplinks = Items::new(alloc);
        for (id, bearer) in self.bearers.iter() {
            uplinks.push(Uplink {
                bearer: *id,
                up: bearer.up,
                teid: bearer.uplink,
            })?;
        }
        Ok(uplinks)
    }

    /// Its downlink tunnels, in the order of bearers.
    fn downlinks(&self, alloc: Global) -> Result<TunnelList, Memory>
        ensures { IfOk result (λ tunnels. tunnels ≡ downlink_list self.now) }
    {
        let mut tunnels = Items::new(alloc);
        for (id, bearer) in self.bearers.iter() {
            tunnels.push(Tunnel {
                bearer: *id,
                teid: bearer.downlink,
            })?;
        }
        Ok(tunnels)
    }
}

/// The bearers with these uplinks, with downlink TEIDs from `next` on.
fn anew(alloc: Global, next: u32, uplinks: &[Uplink]) -> Result<Table<BearerId, DuBearer>, Memory>
    requires sorted { IsStrictlySortedBy bearer_cmp (map (λ u. u.bearer) uplinks.now) }
    requires left { next + length uplinks.now ≤ 2 ^ 32 }
    ensures { IfOk result (λ bearers. bearers ≡ anew_of next uplinks.now) }
{
    let mut bearers = Table::new(alloc);
    let mut teid = u64::from(next);
    for uplink in uplinks {
        let bearer = DuBearer {
            up: uplink.up,
            uplink: uplink.teid,
            downlink: teid as u32,
            awaited: 0,
            gap: false,
        };
        bearers.put(uplink.bearer, bearer)?;
        teid += 1;
    }
    Ok(bearers)
}

impl DuContexts {
    fn context_of(&self, ue: UeId) -> Option<&DuContext>
        ensures { option_copied result ≡ find ue_cmp self.now.contexts ue }
    {
        self.contexts.get(&ue)
    }

    /// The downlink tunnels of a terminal's bearers, in the order of bearers; none where it has no context.
    pub fn downlinks(&self, alloc: Global, ue: UeId) -> Result<TunnelList, Memory>
        ensures { IfOk result (λ tunnels. tunnels ≡ downlinks_at (find ue_cmp self.now.contexts ue)) }
    {
        match self.context_of(ue) {
            Some(context) => context.downlinks(alloc),
            None => Ok(Items::new(alloc)),
        }
    }

    /// The terminal's radio is that of this epoch now, and its bearers get new downlink tunnels.
    pub fn renew(
        &mut self,
        alloc: Global,
        ue: UeId,
        epoch: u32,
        outputs: &mut Outputs,
    ) -> Result<(), StepError>
        ensures { (codec : Codec) (r : OctetDu) → IsStep
            (step_after outputs.old (renewed codec ue epoch (with_tables r self.old) (find ue_cmp self.old.contexts ue)))
            outputs.new (with_tables r self.new) result }
    {
        let Some(context) = self.context_of(ue) else {
            return drop_input(outputs, DropReason::NoContext);
        };
        let length = context.sn();
        let uplinks = context.uplinks(alloc)?;
        let slice = uplinks.as_slice();
        if !self.has_teids(slice.len()) {
            return Err(StepError::Spent { counter: TEIDS });
        }
        let bearers = anew(alloc, self.next_teid(), slice)?;
        let now = DuContext {
            epoch,
            sn: length,
            bearers,
        };
        self.replace(ue, now, outputs)
    }
}
