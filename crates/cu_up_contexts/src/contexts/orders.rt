//! The orders of control to a terminal's context (TS 37.483, 8.3.2). At a terminal that has none nothing is done.

ghost use Rattle.std.specs.Prelude.{◌≡◌, true, false, Some};
ghost use Rattle.gnb_types.specs.Orders.{ue_cmp};
ghost use Rattle.tables.specs.Tables.{find};
ghost use Rattle.unit_defs.specs.CuUpRecords.{CuUpContext};
ghost use Rattle.unit_defs.specs.octet_defs.Codec.{Codec};
ghost use Rattle.unit_messages.specs.steps.Steps.{IsStep, step_after};
ghost use Rattle.cu_up_contexts.specs.bearer_context.Orders.{AreShort};
ghost use Rattle.cu_up_contexts.specs.contexts.Tables.{OctetUp, with_tables};
ghost use Rattle.cu_up_contexts.specs.contexts.Rows.{switched_at, frozen_at, known_at, resumed_at};

use crate::contexts::contexts::Contexts;
use gnb_types::names::{NodeId, UeId};
use gnb_types::outputs::Outputs;
use gnb_types::plans::{SnStatus, Tunnel};
use std::alloc::Global;
use unit_messages::steps::StepError;

impl Contexts {
    /// The frozen state ends, the terminal is there, and the downlinks go to these tunnels of a DU from now on.
    pub fn switch(
        &mut self,
        alloc: Global,
        ue: UeId,
        du: NodeId,
        downlinks: &[Tunnel],
        out: &mut Outputs,
    ) -> Result<(), StepError>
        ensures { (codec : Codec) (r : OctetUp) → IsStep
            (step_after out.old (switched_at codec ue du downlinks.now (with_tables r self.old) (find ue_cmp self.old.contexts ue)))
            out.new (with_tables r self.new) result }
    {
        let Some(context) = self.contexts.get_mut(&ue) else {
            return Ok(());
        };
        context.switch(alloc, ue, du, downlinks, out)
    }

    /// All that is held goes to these tunnels of a CU-UP, and so does what comes from now on.
    pub fn freeze(
        &mut self,
        alloc: Global,
        ue: UeId,
        peer: NodeId,
        down: &[Tunnel],
        up: &[Tunnel],
        out: &mut Outputs,
    ) -> Result<(), StepError>
        requires { (c : CuUpContext) → find ue_cmp self.old.contexts ue ≡ Some c → c.flags.may_serve ≡ true }
        ensures { (codec : Codec) (r : OctetUp) → IsStep
            (step_after out.old (frozen_at codec ue peer down.now up.now (with_tables r self.old) (find ue_cmp self.old.contexts ue)))
            out.new (with_tables r self.new) result }
    {
        let Some(context) = self.contexts.get_mut(&ue) else {
            return Ok(());
        };
        context.freeze(alloc, ue, peer, down, up, out)
    }

    /// The bearers of a target go on where those of the source stand.
    pub fn take_status(
        &mut self,
        alloc: Global,
        ue: UeId,
        statuses: &[SnStatus],
        out: &mut Outputs,
    ) -> Result<(), StepError>
        requires new { (c : CuUpContext) → find ue_cmp self.old.contexts ue ≡ Some c → c.flags.may_serve ≡ false }
        requires short { AreShort statuses.now }
        ensures { (codec : Codec) (r : OctetUp) → IsStep
            (step_after out.old (known_at codec ue statuses.now (with_tables r self.old) (find ue_cmp self.old.contexts ue)))
            out.new (with_tables r self.new) result }
    {
        let Some(context) = self.contexts.get_mut(&ue) else {
            return Ok(());
        };
        context.take_status(alloc, ue, statuses, out)
    }

    /// The frozen state ends, and the bearers go on.
    pub fn resume(&mut self, alloc: Global, ue: UeId, out: &mut Outputs) -> Result<(), StepError>
        requires { (c : CuUpContext) → find ue_cmp self.old.contexts ue ≡ Some c → c.flags.frozen ≡ true }
        ensures { (codec : Codec) (r : OctetUp) → IsStep
            (step_after out.old (resumed_at codec ue (with_tables r self.old) (find ue_cmp self.old.contexts ue)))
            out.new (with_tables r self.new) result }
    {
        let Some(context) = self.contexts.get_mut(&ue) else {
            return Ok(());
        };
        context.resume(alloc, ue, out)
    }
}
