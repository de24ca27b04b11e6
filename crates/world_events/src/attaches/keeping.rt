//! What a run keeps of a terminal that is set up without messages.

ghost use Rattle.std.specs.Prelude.{◌≡◌, ◌≤◌, ◌+◌, ◌*◌, ◌^◌, List, IfOk, OnOk};
ghost use Rattle.scenario_text.specs.declared.line.OutLine.{OutLine};
ghost use Rattle.run_defs.specs.Conditions.{n3_from};
ghost use Rattle.run_links.specs.Told.{Makes};
ghost use Rattle.world_events.specs.attaches.Comings.{with_path, opens_from, keeps};

use core_node::{CoreNode, CorePath};
use gnb_types::items::{Items, Memory};
use gnb_types::keys::TunnelEnd;
use gnb_types::names::{BearerId, NodeId};
use gnb_types::plans::{Plan, Tunnel, TunnelList};
use run_links::network::Network;
use std::alloc::Global;

/// The N3 tunnels of the bearers 1, 2, 3 and so on: every second TEID from this one on.
fn n3_from(alloc: Global, first: u32, bearers: u8) -> Result<TunnelList, Memory>
    requires few { bearers ≤ 8 }
    requires within { first + 2 * bearers ≤ 2 ^ 32 }
    ensures { IfOk result (λ n3. n3 ≡ n3_from 1 first bearers) }
{
    let mut n3 = Items::new(alloc);
    for before in 0..bearers {
        n3.push(Tunnel {
            bearer: BearerId(before + 1),
            teid: first + 2 * u32::from(before),
        })?;
    }
    Ok(n3)
}

/// The downlink of a terminal goes to the CU-UP of its plan, from this TEID there on.
pub(crate) fn keep_path(
    core: &mut CoreNode,
    alloc: Global,
    plan: Plan,
    up: u32,
) -> Result<(), Memory>
    requires few { plan.bearers ≤ 8 }
    requires within { up + 2 * plan.bearers ≤ 2 ^ 32 }
    ensures { OnOk result (core.new ≡ with_path plan up core.old) }
{
    let n3 = n3_from(alloc, up, plan.bearers)?;
    let path = CorePath {
        up: NodeId::CuUp(plan.gnb, plan.up),
        n3,
    };
    core.set_path(plan.ue, path)
}

/// Opens so many tunnels that end at this node, from this TEID on.
fn open_from(network: &mut Network, node: NodeId, first: u32, count: u8) -> Result<(), Memory>
    requires { first + count ≤ 2 ^ 32 }
    ensures { OnOk result ((lines : List OutLine) → Makes (opens_from node first count) network.old network.new lines lines) }
{
    for before in 0..count {
        let teid = first + u32::from(before);
        network.open(TunnelEnd { node, teid })?;
    }
    Ok(())
}

/// The run keeps the tunnels of a terminal, from these TEIDs of its CU-UP and its DU on, that it is connected, and its plan.
pub(crate) fn keep_terminal(
    network: &mut Network,
    plan: Plan,
    up: u32,
    du: u32,
) -> Result<(), Memory>
    requires few { plan.bearers ≤ 8 }
    requires above { up + 2 * plan.bearers ≤ 2 ^ 32 }
    requires below { du + plan.bearers ≤ 2 ^ 32 }
    ensures { OnOk result ((lines : List OutLine) → Makes (keeps plan up du) network.old network.new lines lines) }
{
    open_from(
        network,
        NodeId::CuUp(plan.gnb, plan.up),
        up,
        2 * plan.bearers,
    )?;
    open_from(network, NodeId::Du(plan.gnb, plan.du), du, plan.bearers)?;
    network.radios.connect(plan.ue, Some(1));
    network.seat(plan)
}
