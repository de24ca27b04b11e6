//! Contexts are made, and get further uplinks (TS 37.483, 8.3.1, 8.3.2).

ghost use Rattle.std.specs.Prelude.{◌≡◌, ◌≤◌, ◌++◌, true, IfOk, OnOk};
ghost use Rattle.std.specs.List.{flat_map};
ghost use Rattle.gnb_types.specs.Orders.{ue_cmp};
ghost use Rattle.tables.specs.Tables.{find, put};
ghost use Rattle.unit_defs.specs.Teids.{teids_are_left, teid_after};
ghost use Rattle.unit_defs.specs.CuUp.{makes, entries_of, opened_of, with_entries};
ghost use Rattle.unit_defs.specs.octet_defs.Codec.{Codec, octet_way};
ghost use Rattle.unit_defs.specs.octet_defs.Writing.{outputs_of};
ghost use Rattle.unit_messages.specs.steps.Steps.{IsStep, step_after};
ghost use Rattle.cu_up_contexts.specs.contexts.Tables.{OctetUp, with_tables};
ghost use Rattle.cu_up_contexts.specs.contexts.Rows.{added_at, uplinks_at};

use crate::bearer_context::{Context, ContextSetup};
use crate::contexts::contexts::{Contexts, CuUpTunnel};
use crate::contexts::tunnels::{
    TEIDS, open_each, open_uplinks, show_opened, teid_after, teids_are_left,
};
use gnb_types::items::{Items, Memory};
use gnb_types::names::UeId;
use gnb_types::outputs::Outputs;
use gnb_types::plans::TunnelList;
use std::alloc::Global;
use tables::table::Table;
use unit_messages::steps::StepError;

/// The run shows that the tunnels of a new context are opened.
fn show_context(alloc: Global, context: &Context, out: &mut Outputs) -> Result<(), Memory>
    ensures { (codec : Codec) → OnOk result
        (out.new ≡ out.old ++ outputs_of (flat_map (opened_of (octet_way codec)) context.now.bearers)) }
{
    let openings = context.openings(alloc)?;
    show_opened(openings.as_slice(), out)
}

/// The tunnels of a context are open.
fn open_context(
    alloc: Global,
    ue: UeId,
    context: &Context,
    tunnels: &mut Table<u32, CuUpTunnel>,
) -> Result<(), Memory>
    ensures { OnOk result
        (tunnels.new ≡ with_entries tunnels.old (flat_map (entries_of ue context.now.instance) context.now.bearers)) }
{
    let openings = context.openings(alloc)?;
    open_each(ue, context.instance(), openings.as_slice(), tunnels)
}

impl Contexts {
    /// The terminal has this context from now on, with these TEIDs, which were given for it; its tunnels are open.
    pub(crate) fn place(
        &mut self,
        alloc: Global,
        ue: UeId,
        context: Context,
        teids: u32,
    ) -> Result<(), Memory>
        requires { teids_are_left self.old.next_teid teids ≡ true }
        ensures { OnOk result (self.new ≡ record self.old {
          next_teid = teid_after self.old.next_teid teids;
          tunnels = with_entries self.old.tunnels (flat_map (entries_of ue context.instance) context.bearers);
          contexts = put ue_cmp self.old.contexts ue context;
        }) }
    {
        self.give_teids(teids);
        open_context(alloc, ue, &context, &mut self.tunnels)?;
        self.contexts.put(ue, context)?;
        Ok(())
    }

    /// A context is made, if there are TEIDs.
    #[tactic(auto, unfolding(unit_defs::specs::CuUp::makes))]
    pub fn make(
        &mut self,
        alloc: Global,
        ue: UeId,
        setup: &ContextSetup,
        out: &mut Outputs,
    ) -> Result<(), StepError>
        requires least { 4 ≤ setup.now.quota }
        requires most { setup.now.quota ≤ 4096 }
        requires few { setup.now.count ≤ 8 }
        ensures { (codec : Codec) (r : OctetUp) → IsStep
            (step_after out.old (makes (octet_way codec) ue setup.now.sn setup.now.quota setup.now.target setup.now.count (with_tables r self.old)))
            out.new (with_tables r self.new) result }
    {
        let teids = u32::from(setup.count) * setup.teids_of_bearer();
        if !self.has_teids(teids) {
            return Err(StepError::Spent { counter: TEIDS });
        }
        let context = Context::new(alloc, ue, setup, self.next_teid())?;
        show_context(alloc, &context, out)?;
        self.place(alloc, ue, context, teids)?;
        Ok(())
    }

    /// One more uplink tunnel for each bearer of the terminal's context, if there is one and there are TEIDs: these.
    pub fn add_uplinks(
        &mut self,
        alloc: Global,
        ue: UeId,
        out: &mut Outputs,
    ) -> Result<TunnelList, StepError>
        ensures step { (codec : Codec) (r : OctetUp) → IsStep
            (step_after out.old (added_at codec ue (with_tables r self.old) (find ue_cmp self.old.contexts ue)))
            out.new (with_tables r self.new) result }
        ensures tunnels { (codec : Codec) → IfOk result (λ tunnels. tunnels
            ≡ uplinks_at codec self.old.next_teid (find ue_cmp self.old.contexts ue)) }
    {
        let next = self.next_teid;
        let Some(context) = self.contexts.get_mut(&ue) else {
            return Ok(Items::new(alloc));
        };
        let count = u32::from(context.count());
        if !teids_are_left(next, count) {
            return Err(StepError::Spent { counter: TEIDS });
        }
        let instance = context.instance();
        let uplinks = context.uplinks_from(alloc, next)?;
        context.add_uplinks(alloc, next, out)?;
        open_uplinks(ue, instance, uplinks.as_slice(), &mut self.tunnels)?;
        self.next_teid = teid_after(next, count);
        Ok(uplinks)
    }
}
