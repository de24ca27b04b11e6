//! Contexts end: where they are released and nothing comes any more, or at once (TS 37.483, 8.3.5).

ghost use Rattle.gnb_types.specs.Orders.{ue_cmp};
ghost use Rattle.tables.specs.Tables.{find};
ghost use Rattle.unit_defs.specs.CuUp.{end_where_over, released_on};
ghost use Rattle.unit_defs.specs.octet_defs.Codec.{Codec, octet_way};
ghost use Rattle.unit_messages.specs.steps.Steps.{IsStep, step_after};
ghost use Rattle.cu_up_contexts.specs.contexts.Tables.{OctetUp, with_tables};
ghost use Rattle.cu_up_contexts.specs.contexts.Rows.{ended_at};

use crate::contexts::contexts::Contexts;
use crate::contexts::tunnels::close_each;
use gnb_types::names::UeId;
use gnb_types::outputs::Outputs;
use std::alloc::Global;
use unit_messages::steps::StepError;

impl Contexts {
    /// The context of a terminal ends, if there is one: its open tunnels are closed.
    fn end(&mut self, alloc: Global, ue: UeId, out: &mut Outputs) -> Result<(), StepError>
        ensures { (codec : Codec) (r : OctetUp) → IsStep
            (step_after out.old (ended_at codec ue (with_tables r self.old) (find ue_cmp self.old.contexts ue)))
            out.new (with_tables r self.new) result }
    {
        let Some(context) = self.contexts.take(&ue) else {
            return Ok(());
        };
        let teids = context.open_teids(alloc)?;
        close_each(teids.as_slice(), &mut self.tunnels, out)?;
        Ok(())
    }

    /// The same where it was released, and nothing comes any more.
    pub(crate) fn end_where_over(
        &mut self,
        alloc: Global,
        ue: UeId,
        out: &mut Outputs,
    ) -> Result<(), StepError>
        ensures { (codec : Codec) (r : OctetUp) → IsStep
            (step_after out.old (end_where_over (octet_way codec) ue (with_tables r self.old)))
            out.new (with_tables r self.new) result }
    {
        let Some(context) = self.get(ue) else {
            return Ok(());
        };
        if !context.is_over() {
            return Ok(());
        }
        self.end(alloc, ue, out)
    }

    /// The context of a terminal is released: it ends at once, or keeps no packet any more, and ends where nothing comes any more.
    pub fn release(
        &mut self,
        alloc: Global,
        ue: UeId,
        is_final: bool,
        out: &mut Outputs,
    ) -> Result<(), StepError>
        ensures { (codec : Codec) (r : OctetUp) → IsStep
            (step_after out.old (released_on (octet_way codec) ue is_final (with_tables r self.old) (find ue_cmp self.old.contexts ue)))
            out.new (with_tables r self.new) result }
    {
        if is_final {
            return self.end(alloc, ue, out);
        }
        let Some(context) = self.contexts.get_mut(&ue) else {
            return Ok(());
        };
        context.release(alloc);
        self.end_where_over(alloc, ue, out)
    }
}
