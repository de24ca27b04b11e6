//! Downlink tunnels: given for each bearer of a context, in the order of bearers, and given back.

ghost use Rattle.std.specs.Prelude.{◌≡◌, ◌+◌, ◌≤◌, ◌^◌, ◌++◌, map, true, IsTrue, OnOk};
ghost use Rattle.unit_defs.specs.Ways.{closed};
ghost use Rattle.gnb_types.specs.Orders.{ue_cmp};
ghost use Rattle.tables.specs.Tables.{find};
ghost use Rattle.unit_defs.specs.Teids.{teids_are_left, teid_after, without_each};
ghost use Rattle.unit_defs.specs.Du.{downlinks_of, with_entries, closings, openings, end_markers, old_downlinks, replaces, released_on};
ghost use Rattle.unit_defs.specs.octet_defs.Codec.{Codec, octet_way};
ghost use Rattle.unit_defs.specs.octet_defs.Writing.{outputs_of};
ghost use Rattle.unit_messages.specs.steps.Steps.{IsStep, step_after};
ghost use Rattle.du_contexts.specs.Tables.{OctetDu, with_tables};

use crate::bearers::{DuContext, DuTunnel};
use crate::contexts::DuContexts;
use gnb_types::items::Memory;
use gnb_types::names::{Dir, UeId};
use gnb_types::outputs::{Output, Outputs, Tag};
use link_packets::write_end_marker;
use std::alloc::Global;
use tables::table::Table;
use unit_messages::steps::StepError;

/// The number of the counter of TEIDs.
pub(crate) const TEIDS: u8 = 2;

/// The downlink tunnels of a context are closed.
fn close(
    context: &DuContext,
    tunnels: &mut Table<u32, DuTunnel>,
    outputs: &mut Outputs,
) -> Result<(), Memory>
    ensures tunnels { OnOk result (tunnels.new ≡ without_each tunnels.old (downlinks_of context.now)) }
    ensures outputs { (codec : Codec) → OnOk result
        (outputs.new ≡ outputs.old ++ outputs_of (closings (octet_way codec) context.now)) }
{
    for (_, bearer) in context.bearers.iter() {
        tunnels.take(&bearer.downlink);
        outputs.push(Output::Closed(bearer.downlink))?;
    }
    Ok(())
}

/// The downlink tunnels of a context are open.
fn open(
    ue: UeId,
    context: &DuContext,
    tunnels: &mut Table<u32, DuTunnel>,
    outputs: &mut Outputs,
) -> Result<(), Memory>
    ensures tunnels { OnOk result (tunnels.new ≡ with_entries ue tunnels.old context.now.bearers) }
    ensures outputs { (codec : Codec) → OnOk result
        (outputs.new ≡ outputs.old ++ outputs_of (openings (octet_way codec) context.now)) }
{
    for (id, bearer) in context.bearers.iter() {
        tunnels.put(bearer.downlink, DuTunnel { ue, bearer: *id })?;
        outputs.push(Output::Opened(bearer.downlink))?;
    }
    Ok(())
}

/// An End Marker goes on each uplink tunnel of a context.
fn end_uplinks(
    alloc: Global,
    ue: UeId,
    context: &DuContext,
    outputs: &mut Outputs,
) -> Result<(), Memory>
    ensures { (codec : Codec) → OnOk result
        (outputs.new ≡ outputs.old ++ outputs_of (end_markers (octet_way codec) ue context.now)) }
{
    for (id, bearer) in context.bearers.iter() {
        let bytes = write_end_marker(alloc, bearer.uplink)?;
        outputs.push(Output::Packet {
            to: bearer.up,
            teid: bearer.uplink,
            ue,
            bearer: *id,
            dir: Dir::Ul,
            count: Tag::Absent,
            bytes,
        })?;
    }
    Ok(())
}

impl DuContexts {
    /// Whether so many TEIDs are left.
    pub fn has_teids(&self, count: usize) -> bool
        ensures left { result ≡ teids_are_left self.now.next_teid count }
        ensures fits { IsTrue result → self.now.next_teid + count ≤ 2 ^ 32 }
    {
        self.next_teid != 0 && count as u64 <= u64::from(u32::MAX - self.next_teid) + 1
    }

    /// So many TEIDs are given.
    fn give_teids(&mut self, count: usize)
        requires { teids_are_left self.old.next_teid count ≡ true }
        ensures { self.new ≡ record self.old { next_teid = teid_after self.old.next_teid count } }
    {
        let end = u64::from(self.next_teid) + count as u64;
        self.next_teid = if end > u64::from(u32::MAX) {
            0
        } else {
            end as u32
        };
    }

    /// The tunnels of the context that the terminal has, if any, are closed.
    fn close_old(&mut self, ue: UeId, outputs: &mut Outputs) -> Result<(), Memory>
        ensures tunnels { (codec : Codec) → OnOk result
            (self.new ≡ record self.old { tunnels = without_each self.old.tunnels (old_downlinks (octet_way codec) (find ue_cmp self.old.contexts ue)) }) }
        ensures outputs { (codec : Codec) → OnOk result (outputs.new
            ≡ outputs.old ++ outputs_of (map (λ teid. closed teid) (old_downlinks (octet_way codec) (find ue_cmp self.old.contexts ue)))) }
    {
        match self.contexts.get(&ue) {
            Some(context) => close(context, &mut self.tunnels, outputs),
            None => Ok(()),
        }
    }

    /// A context replaces the one that the terminal has, if any: the old tunnels are closed, and the new ones given.
    #[tactic(auto, unfolding(unit_defs::specs::Du::replaces))]
    pub fn replace(
        &mut self,
        ue: UeId,
        context: DuContext,
        outputs: &mut Outputs,
    ) -> Result<(), StepError>
        ensures { (codec : Codec) (r : OctetDu) → IsStep
            (step_after outputs.old
            (replaces (octet_way codec) ue (find ue_cmp self.old.contexts ue) context (with_tables r self.old)))
            outputs.new (with_tables r self.new) result }
    {
        let count = context.bearers.len();
        if !self.has_teids(count) {
            return Err(StepError::Spent { counter: TEIDS });
        }
        self.give_teids(count);
        self.close_old(ue, outputs)?;
        open(ue, &context, &mut self.tunnels, outputs)?;
        self.contexts.put(ue, context)?;
        Ok(())
    }
    /// The context of a terminal is given back, if it has one: an End Marker goes on each uplink tunnel, then the downlink tunnels are
    /// closed.
    pub fn release(
        &mut self,
        alloc: Global,
        ue: UeId,
        outputs: &mut Outputs,
    ) -> Result<(), StepError>
        ensures { (codec : Codec) (r : OctetDu) → IsStep
            (step_after outputs.old
            (released_on (octet_way codec) ue (with_tables r self.old) (find ue_cmp self.old.contexts ue)))
            outputs.new (with_tables r self.new) result }
    {
        let Some(context) = self.contexts.take(&ue) else {
            return Ok(());
        };
        end_uplinks(alloc, ue, &context, outputs)?;
        close(&context, &mut self.tunnels, outputs)?;
        Ok(())
    }
}
