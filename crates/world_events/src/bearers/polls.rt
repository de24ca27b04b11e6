//! `poll`: the CU-UP of the serving context asks for a delivery status, where a downlink packet is unconfirmed.

ghost use Rattle.std.specs.Prelude.{◌≡◌, OnOk};
ghost use Rattle.run_defs.specs.Events.{poll};
ghost use Rattle.run_defs.specs.UnitRuns.{unit_world};
ghost use Rattle.run_links.specs.Networks.{state_of};
ghost use Rattle.world_steps.specs.Gives.{EventGives};
ghost use Rattle.world_events.specs.bearers.Places.{poll_node};

use gnb_types::inputs::{Input, Order};
use gnb_types::names::{BearerId, NodeId, UeId};
use gnb_types::reasons::RefuseReason;
use run_links::lines::Lines;
use scenario_text::line::OutLine;
use unit_messages::MessageCodec;
use world_steps::Units;
use world_steps::cause::Cause;
use world_steps::run_state::RunState;

/// The CU-UP that polls a bearer, or why none does.
fn poll_node<U: Units<C> + Drop, C: MessageCodec + Drop>(
    run_state: &RunState<U, C>,
    ue: UeId,
    bearer: BearerId,
) -> Result<NodeId, RefuseReason>
    requires { U.ready run_state.now.units }
    ensures { result ≡ poll_node (state_of (U.records run_state.now.units) run_state.now.core run_state.now.network) ue bearer }
{
    if !run_state.network.has_bearer(ue, bearer) {
        return Err(RefuseReason::NoBearer);
    }
    let gnb = run_state.serving_gnb(ue);
    match run_state.serving_place(ue) {
        Some((up, _)) if run_state.is_unconfirmed(gnb, up, ue, bearer) => Ok(NodeId::CuUp(gnb, up)),
        _ => Err(RefuseReason::Empty),
    }
}

/// `poll`.
pub fn poll<U: Units<C> + Drop, C: MessageCodec + Drop>(
    run_state: &mut RunState<U, C>,
    ue: UeId,
    bearer: BearerId,
    lines: &mut Lines,
) -> Result<(), Cause>
    requires { U.ready run_state.old.units }
    ensures ready { OnOk result (U.ready run_state.new.units) }
    ensures gives { EventGives lines.old
        (poll (unit_world C.codec U.answer) ue bearer (state_of (U.records run_state.old.units) run_state.old.core run_state.old.network))
        lines.new (state_of (U.records run_state.new.units) run_state.new.core run_state.new.network) result }
{
    match poll_node(run_state, ue, bearer) {
        Ok(node) => run_state.step(node, Input::Order(Order::Poll(ue, bearer)), lines),
        Err(reason) => {
            lines.push(OutLine::Refused { reason })?;
            Ok(())
        }
    }
}
