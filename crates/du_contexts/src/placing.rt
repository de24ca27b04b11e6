//! Terminals that are set up without messages.

ghost use Rattle.std.specs.Prelude.{◌≡◌, ◌+◌, ◌*◌, ◌≤◌, ◌^◌, None, IsTrue, IfOk};
ghost use Rattle.gnb_types.specs.Orders.{ue_cmp};
ghost use Rattle.tables.specs.Tables.{find};
ghost use Rattle.unit_defs.specs.CuUp.{bearers_from};
ghost use Rattle.unit_defs.specs.Static.{uplinks_from};
ghost use Rattle.unit_defs.specs.octet_defs.Codec.{Codec};
ghost use Rattle.du_contexts.specs.Tables.{OctetDu, with_tables};
ghost use Rattle.du_contexts.specs.Placing.{uplinks_fit, IsPlaced};

use crate::contexts::DuContexts;
use crate::downlinks::TEIDS;
use crate::making::ContextSetup;
use gnb_types::items::{Items, Memory};
use gnb_types::names::{BearerId, Gnb};
use gnb_types::outputs::Outputs;
use gnb_types::plans::{Peer, Plan, Tunnel, TunnelList};
use std::alloc::Global;
use unit_messages::steps::StepError;

/// Whether every second TEID from this one on, one for each bearer, is one of 32 bits.
fn uplinks_fit(uplink: u32, bearers: u8) -> bool
    ensures is { result ≡ uplinks_fit uplink bearers }
    ensures fits { IsTrue result → uplink + 2 * bearers ≤ 2 ^ 32 + 1 }
{
    u64::from(uplink) + 2 * u64::from(bearers) <= (1 << 32) + 1
}

/// The uplinks of the bearers 1, 2, 3 and so on: every second TEID from this one on.
fn static_uplinks(alloc: Global, uplink: u32, bearers: u8) -> Result<TunnelList, Memory>
    requires { uplink + 2 * bearers ≤ 2 ^ 32 + 1 }
    ensures { IfOk result (λ tunnels. tunnels ≡ uplinks_from uplink (bearers_from 1 bearers)) }
{
    let mut tunnels = Items::new(alloc);
    let mut teid = u64::from(uplink);
    for i in 0..bearers {
        tunnels.push(Tunnel {
            bearer: BearerId(i + 1),
            teid: teid as u32,
        })?;
        teid += 2;
    }
    Ok(tunnels)
}

impl DuContexts {
    /// A terminal without a context gets the one of this plan at the DU of `gnb`, as if it had been attached. Its uplinks go to every
    /// second TEID of the CU-UP from `uplink` on.
    pub fn place_static(
        &mut self,
        alloc: Global,
        gnb: Gnb,
        plan: Plan,
        uplink: u32,
    ) -> Result<(), StepError>
        requires { find ue_cmp self.old.contexts plan.ue ≡ None }
        ensures { (codec : Codec) (r : OctetDu) → r.gnb ≡ gnb
            → IsPlaced (with_tables r self.old) plan uplink (with_tables r self.new) result }
    {
        if !self.has_teids(usize::from(plan.bearers)) {
            return Err(StepError::Spent { counter: TEIDS });
        }
        if !uplinks_fit(uplink, plan.bearers) {
            return Err(StepError::Spent { counter: TEIDS });
        }
        let uplinks = static_uplinks(alloc, uplink, plan.bearers)?;
        let slice = uplinks.as_slice();
        let setup = ContextSetup {
            epoch: 1,
            sn: plan.sn,
            peer: Peer { gnb, up: plan.up },
        };
        let mut outputs = Outputs::new(alloc);
        self.set_up(alloc, plan.ue, setup, slice, &mut outputs)
    }
}
