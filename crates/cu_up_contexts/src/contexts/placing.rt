//! Terminals that are set up without messages.

ghost use Rattle.std.specs.Prelude.{◌≡◌, ◌+◌, ◌≤◌, ◌^◌, None, IsTrue};
ghost use Rattle.gnb_types.specs.Orders.{ue_cmp};
ghost use Rattle.tables.specs.Tables.{find};
ghost use Rattle.cu_up_contexts.specs.contexts.Tables.{OctetUp, with_tables};
ghost use Rattle.cu_up_contexts.specs.contexts.Placing.{downlinks_fit, IsPut, IsPlaced};

use crate::bearer_context::{Context, ContextSetup};
use crate::contexts::contexts::Contexts;
use crate::contexts::tunnels::TEIDS;
use gnb_types::names::Gnb;
use gnb_types::plans::Plan;
use std::alloc::Global;
use unit_messages::steps::StepError;

/// Why a terminal was not placed.
#[derive(Clone, Copy, Debug, PartialEq, Eq)]
pub enum PlaceError {
    /// There are not enough blocks: nothing changed.
    NoQuota,
    /// The CU-UP is of no use from then on.
    Step(StepError),
}

/// Whether the TEIDs from this one on, one for each bearer, are of 32 bits.
fn downlinks_fit(downlink: u32, bearers: u8) -> bool
    ensures is { result ≡ downlinks_fit downlink bearers }
    ensures fits { IsTrue result → downlink + bearers ≤ 2 ^ 32 }
{
    u64::from(downlink) + u64::from(bearers) <= 1 << 32
}

impl Contexts {
    /// A terminal without a context gets the one of this plan at the CU-UP of `gnb`, as if it had been attached. Its downlinks go to the
    /// TEIDs of the DU from `downlink` on.
    pub fn place_static(
        &mut self,
        alloc: Global,
        gnb: Gnb,
        plan: Plan,
        downlink: u32,
    ) -> Result<(), PlaceError>
        requires least { 4 ≤ plan.quota }
        requires most { plan.quota ≤ 4096 }
        requires few { plan.bearers ≤ 8 }
        requires new { find ue_cmp self.old.contexts plan.ue ≡ None }
        ensures { (r : OctetUp) → r.gnb ≡ gnb
            → IsPlaced (with_tables r self.old) plan downlink (with_tables r self.new) result }
    {
        if !self.fits(plan.bearers, plan.quota) {
            return Err(PlaceError::NoQuota);
        }
        match self.put_static(alloc, gnb, plan, downlink) {
            Ok(()) => Ok(()),
            Err(error) => Err(PlaceError::Step(error)),
        }
    }

    /// The same where there are blocks.
    fn put_static(
        &mut self,
        alloc: Global,
        gnb: Gnb,
        plan: Plan,
        downlink: u32,
    ) -> Result<(), StepError>
        requires least { 4 ≤ plan.quota }
        requires most { plan.quota ≤ 4096 }
        requires few { plan.bearers ≤ 8 }
        ensures { (r : OctetUp) → r.gnb ≡ gnb
            → IsPut (with_tables r self.old) plan downlink (with_tables r self.new) result }
    {
        let teids = 2 * u32::from(plan.bearers);
        if !self.has_teids(teids) {
            return Err(StepError::Spent { counter: TEIDS });
        }
        if !downlinks_fit(downlink, plan.bearers) {
            return Err(StepError::Spent { counter: TEIDS });
        }
        let setup = ContextSetup {
            sn: plan.sn,
            quota: plan.quota,
            target: false,
            count: plan.bearers,
        };
        let mut context = Context::new(alloc, plan.ue, &setup, self.next_teid())?;
        context.begin_at(gnb, plan.du, downlink);
        self.place(alloc, plan.ue, context, teids)?;
        Ok(())
    }
}
