//! `start` and `tick`: each unit has its turn, in order.

ghost use Rattle.std.specs.Prelude.{◌≡◌, ◌++◌, IfOk, OnOk};
ghost use Rattle.gnb_types.specs.declared.inputs.Order.TheVariants as orders;
ghost use Rattle.run_defs.specs.States.{tick_for, order_for};
ghost use Rattle.run_defs.specs.Steps.{step};
ghost use Rattle.run_defs.specs.Conditions.{ticking};
ghost use Rattle.run_defs.specs.Events.{order_each, start, tick};
ghost use Rattle.run_defs.specs.UnitRuns.{unit_world};
ghost use Rattle.run_links.specs.Networks.{state_of};
ghost use Rattle.world_steps.specs.Gives.{EventGives};
ghost use Rattle.world_steps.specs.control_messages.Turns.{nodes_there};

use crate::Units;
use crate::cause::Cause;
use crate::run_state::RunState;
use gnb_types::inputs::{Input, Order};
use gnb_types::items::{Items, Memory};
use gnb_types::names::{Gnb, NodeId, UeId};
use gnb_types::reasons::RefuseReason;
use run_links::lines::Lines;
use run_links::network::Network;
use scenario_text::line::OutLine;
use unit_messages::MessageCodec;

/// The units that are started, in order.
const STARTING_NODES: [NodeId; 8] = [
    NodeId::CuUp(Gnb::A, 1),
    NodeId::CuUp(Gnb::A, 2),
    NodeId::Du(Gnb::A, 1),
    NodeId::Du(Gnb::A, 2),
    NodeId::CuUp(Gnb::B, 1),
    NodeId::CuUp(Gnb::B, 2),
    NodeId::Du(Gnb::B, 1),
    NodeId::Du(Gnb::B, 2),
];

/// The units of the gNBs, in order.
const GNB_NODES: [NodeId; 10] = [
    NodeId::CuCp(Gnb::A),
    NodeId::CuUp(Gnb::A, 1),
    NodeId::CuUp(Gnb::A, 2),
    NodeId::Du(Gnb::A, 1),
    NodeId::Du(Gnb::A, 2),
    NodeId::CuCp(Gnb::B),
    NodeId::CuUp(Gnb::B, 1),
    NodeId::CuUp(Gnb::B, 2),
    NodeId::Du(Gnb::B, 1),
    NodeId::Du(Gnb::B, 2),
];

/// Each of these units starts.
fn start_each<U: Units<C> + Drop, C: MessageCodec + Drop>(
    run_state: &mut RunState<U, C>,
    nodes: &[NodeId],
    lines: &mut Lines,
) -> Result<(), Cause>
    requires { U.ready run_state.old.units }
    ensures ready { OnOk result (U.ready run_state.new.units) }
    ensures gives { EventGives lines.old
        (order_each (unit_world C.codec U.answer) (λ node. step (unit_world C.codec U.answer) node (order_for orders.Start)) nodes.now
        (state_of (U.records run_state.old.units) run_state.old.core run_state.old.network))
        lines.new (state_of (U.records run_state.new.units) run_state.new.core run_state.new.network) result }
{
    for node in nodes {
        match run_state.step(*node, Input::Order(Order::Start), lines) {
            Ok(()) => {}
            Err(cause) => return Err(cause),
        }
    }
    Ok(())
}

/// `start`.
pub fn start<U: Units<C> + Drop, C: MessageCodec + Drop>(
    run_state: &mut RunState<U, C>,
    lines: &mut Lines,
) -> Result<(), Cause>
    requires { U.ready run_state.old.units }
    ensures ready { OnOk result (U.ready run_state.new.units) }
    ensures gives { EventGives lines.old
        (start (unit_world C.codec U.answer) (state_of (U.records run_state.old.units) run_state.old.core run_state.old.network))
        lines.new (state_of (U.records run_state.new.units) run_state.new.core run_state.new.network) result }
{
    if run_state.network.has_started() {
        lines.push(OutLine::Refused {
            reason: RefuseReason::Busy,
        })?;
        return Ok(());
    }
    run_state.network.start();
    start_each(run_state, &STARTING_NODES, lines)
}

/// The nodes that have a tick, in order: the units of the gNBs, and each terminal that isn't gone.
fn ticking<U: Units<C> + Drop, C: MessageCodec + Drop>(
    run_state: &RunState<U, C>,
) -> Result<Items<NodeId>, Memory>
    requires { U.ready run_state.now.units }
    ensures { IfOk result (λ nodes. nodes ≡ ticking (state_of (U.records run_state.now.units) run_state.now.core run_state.now.network)) }
{
    let terminals = run_state.units.terminals(run_state.alloc)?;
    let mut nodes = Items::from_slice(run_state.alloc, &GNB_NODES)?;
    push_there(&mut nodes, &run_state.network, terminals.as_slice())?;
    Ok(nodes)
}

/// Puts each of these terminals that isn't gone at the end.
fn push_there(
    nodes: &mut Items<NodeId>,
    network: &Network,
    terminals: &[UeId],
) -> Result<(), Memory>
    ensures { OnOk result (nodes.new ≡ nodes.old ++ nodes_there network.now.gone terminals.now) }
{
    for ue in terminals {
        if !network.is_gone(*ue) {
            nodes.push(NodeId::Ue(ue.0))?;
        }
    }
    Ok(())
}

/// Each of these nodes has its tick.
fn tick_each<U: Units<C> + Drop, C: MessageCodec + Drop>(
    run_state: &mut RunState<U, C>,
    nodes: &[NodeId],
    lines: &mut Lines,
) -> Result<(), Cause>
    requires { U.ready run_state.old.units }
    ensures ready { OnOk result (U.ready run_state.new.units) }
    ensures gives { EventGives lines.old
        (order_each (unit_world C.codec U.answer) (λ node. step (unit_world C.codec U.answer) node tick_for) nodes.now
        (state_of (U.records run_state.old.units) run_state.old.core run_state.old.network))
        lines.new (state_of (U.records run_state.new.units) run_state.new.core run_state.new.network) result }
{
    for node in nodes {
        match run_state.step(*node, Input::Tick, lines) {
            Ok(()) => {}
            Err(cause) => return Err(cause),
        }
    }
    Ok(())
}

/// `tick`.
pub fn tick<U: Units<C> + Drop, C: MessageCodec + Drop>(
    run_state: &mut RunState<U, C>,
    lines: &mut Lines,
) -> Result<(), Cause>
    requires { U.ready run_state.old.units }
    ensures ready { OnOk result (U.ready run_state.new.units) }
    ensures gives { EventGives lines.old
        (tick (unit_world C.codec U.answer) (state_of (U.records run_state.old.units) run_state.old.core run_state.old.network))
        lines.new (state_of (U.records run_state.new.units) run_state.new.core run_state.new.network) result }
{
    let nodes = ticking(run_state)?;
    tick_each(run_state, nodes.as_slice(), lines)
}
