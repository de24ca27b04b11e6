//! Tunnels that end at the CU-UP: given, opened and closed, by TEID.

ghost use Rattle.std.specs.Prelude.{◌≡◌, ◌+◌, ◌≤◌, ◌^◌, ◌++◌, map, true, Some, IsTrue, OnOk};
ghost use Rattle.std.specs.List.{flat_map};
ghost use Rattle.unit_defs.specs.Teids.{teids_are_left, teid_after, without_each};
ghost use Rattle.unit_defs.specs.CuUpRecords.{f1u_uplink};
ghost use Rattle.unit_defs.specs.CuUp.{entries, with_entries};
ghost use Rattle.gnb_types.specs.declared.outputs.Output.TheVariants as outs;
ghost use Rattle.cu_up_contexts.specs.bearer_context.Answers.{entry_as};
ghost use Rattle.cu_up_contexts.specs.contexts.Rows.{closed_of};

use crate::bearer_context::answers::Opening;
use crate::contexts::contexts::{Contexts, CuUpTunnel};
use cu_up_items::items::Kind;
use gnb_types::items::Memory;
use gnb_types::names::UeId;
use gnb_types::outputs::{Output, Outputs};
use gnb_types::plans::Tunnel;
use tables::table::Table;

/// The number of the counter of TEIDs.
pub(crate) const TEIDS: u8 = 2;

/// Tunnels of a context are open.
pub(crate) fn open_each(
    ue: UeId,
    context: u32,
    openings: &[Opening],
    tunnels: &mut Table<u32, CuUpTunnel>,
) -> Result<(), Memory>
    ensures { OnOk result (tunnels.new ≡ with_entries tunnels.old (map (entry_as ue context) openings.now)) }
{
    for opening in openings {
        let tunnel = CuUpTunnel {
            ue,
            bearer: opening.bearer,
            kind: opening.kind,
            context,
        };
        tunnels.put(opening.teid, tunnel)?;
    }
    Ok(())
}

/// Further uplinks of a context are open.
pub(crate) fn open_uplinks(
    ue: UeId,
    context: u32,
    uplinks: &[Tunnel],
    tunnels: &mut Table<u32, CuUpTunnel>,
) -> Result<(), Memory>
    ensures { OnOk result (tunnels.new ≡ with_entries tunnels.old
        (flat_map (λ t. entries ue t.bearer context f1u_uplink (Some t.teid)) uplinks.now)) }
{
    for uplink in uplinks {
        let tunnel = CuUpTunnel {
            ue,
            bearer: uplink.bearer,
            kind: Kind::F1uUplink,
            context,
        };
        tunnels.put(uplink.teid, tunnel)?;
    }
    Ok(())
}

/// The run shows that tunnels are opened.
pub(crate) fn show_opened(openings: &[Opening], out: &mut Outputs) -> Result<(), Memory>
    ensures { OnOk result (out.new ≡ out.old ++ map (λ o. outs.Opened o.teid) openings.now) }
{
    for opening in openings {
        out.push(Output::Opened(opening.teid))?;
    }
    Ok(())
}

/// These tunnels are closed, and the run shows it.
pub(crate) fn close_each(
    teids: &[u32],
    tunnels: &mut Table<u32, CuUpTunnel>,
    out: &mut Outputs,
) -> Result<(), Memory>
    ensures tunnels { OnOk result (tunnels.new ≡ without_each tunnels.old teids.now) }
    ensures out { OnOk result (out.new ≡ out.old ++ map (λ teid. outs.Closed teid) teids.now) }
{
    for teid in teids {
        tunnels.take(teid);
        out.push(Output::Closed(*teid))?;
    }
    Ok(())
}

/// The TEIDs that these outputs close are given back.
pub(crate) fn close_shown(tunnels: &mut Table<u32, CuUpTunnel>, out: &[Output])
    ensures { tunnels.new ≡ without_each tunnels.old (flat_map closed_of out.now) }
{
    for output in out {
        if let Output::Closed(teid) = output {
            tunnels.take(teid);
        }
    }
}

/// Whether so many TEIDs are left from the next one on.
pub(crate) fn teids_are_left(next: u32, count: u32) -> bool
    ensures left { result ≡ teids_are_left next count }
    ensures fits { IsTrue result → next + count ≤ 2 ^ 32 }
{
    next != 0 && u64::from(count) <= u64::from(u32::MAX - next) + 1
}

/// The next TEID after so many, 0 where the last one is given.
pub(crate) fn teid_after(next: u32, count: u32) -> u32
    requires { teids_are_left next count ≡ true }
    ensures { result ≡ teid_after next count }
{
    let end = u64::from(next) + u64::from(count);
    if end > u64::from(u32::MAX) {
        0
    } else {
        end as u32
    }
}

impl Contexts {
    /// Whether so many TEIDs are left.
    pub(crate) fn has_teids(&self, count: u32) -> bool
        ensures left { result ≡ teids_are_left self.now.next_teid count }
        ensures fits { IsTrue result → self.now.next_teid + count ≤ 2 ^ 32 }
    {
        teids_are_left(self.next_teid, count)
    }

    /// So many TEIDs are given.
    pub(crate) fn give_teids(&mut self, count: u32)
        requires { teids_are_left self.old.next_teid count ≡ true }
        ensures { self.new ≡ record self.old { next_teid = teid_after self.old.next_teid count } }
    {
        self.next_teid = teid_after(self.next_teid, count);
    }
}
