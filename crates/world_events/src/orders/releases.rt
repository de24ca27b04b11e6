//! `release`: what stands on the terminal's radios is lost, it is gone, and then its CU-CP lets it go.

ghost use Rattle.std.specs.Prelude.{◌≡◌, OnOk, None};
ghost use Rattle.gnb_types.specs.declared.names.NodeId.TheVariants.{CuCp};
ghost use Rattle.gnb_types.specs.declared.inputs.Order.TheVariants as orders;
ghost use Rattle.run_defs.specs.States.{order_for};
ghost use Rattle.run_defs.specs.Steps.{does};
ghost use Rattle.run_defs.specs.Events.{leaves, release};
ghost use Rattle.run_defs.specs.UnitRuns.{unit_world};
ghost use Rattle.run_links.specs.Networks.{state_of};
ghost use Rattle.world_steps.specs.Gives.{EventGives};
ghost use Rattle.world_steps.specs.Moves.{StepOutcome};
ghost use Rattle.world_events.specs.orders.Orders.{releaser_of};

use crate::orders::looks::is_busy_with;
use gnb_types::inputs::{Input, Order};
use gnb_types::names::{Gnb, NodeId, UeId};
use gnb_types::reasons::RefuseReason;
use run_links::lines::Lines;
use scenario_text::line::OutLine;
use unit_messages::MessageCodec;
use world_steps::Units;
use world_steps::asked::{Asked, Moved, moved_by};
use world_steps::cause::Cause;
use world_steps::run_state::RunState;

/// The gNB whose CU-CP lets a terminal go, or why none does.
fn releaser_of<U: Units<C> + Drop, C: MessageCodec + Drop>(
    run_state: &RunState<U, C>,
    ue: UeId,
) -> Result<Gnb, RefuseReason>
    requires { U.ready run_state.now.units }
    ensures { result ≡ releaser_of (state_of (U.records run_state.now.units) run_state.now.core run_state.now.network) ue }
{
    if !run_state.network.is_attached(ue) {
        return Err(RefuseReason::NoUe);
    }
    if is_busy_with(run_state, ue) {
        return Err(RefuseReason::Busy);
    }
    Ok(run_state.serving_gnb(ue))
}

/// The CU-CP is asked to let a terminal go, and it is gone before what the CU-CP says goes out. What wasn't made isn't printed.
fn let_go<U: Units<C> + Drop, C: MessageCodec + Drop>(
    run_state: &mut RunState<U, C>,
    gnb: Gnb,
    ue: UeId,
    lines: &mut Lines,
) -> Result<Moved, Cause>
    requires ready { U.ready run_state.old.units }
    ensures ready { OnOk result (U.ready run_state.new.units) }
    ensures gives { StepOutcome
        (does (unit_world C.codec U.answer) (CuCp gnb) (order_for (orders.Release ue)) None (leaves (unit_world C.codec U.answer) ue)
        (state_of (U.records run_state.old.units) run_state.old.core run_state.old.network))
        (record { state = state_of (U.records run_state.old.units) run_state.old.core run_state.old.network; lines = lines.old })
        (record { state = state_of (U.records run_state.new.units) run_state.new.core run_state.new.network; lines = lines.new }) result }
{
    let asked = match run_state.ask(NodeId::CuCp(gnb), Input::Order(Order::Release(ue))) {
        Ok(asked) => asked,
        Err(cause) => return Err(cause),
    };
    match asked {
        Asked::Does(outputs) => {
            run_state.network.leave(ue, lines)?;
            moved_by(run_state.finish(NodeId::CuCp(gnb), None, outputs, lines))
        }
        Asked::Holds(reason) => Ok(Moved::Holds(reason)),
        Asked::Refuses(reason) => Ok(Moved::Refuses(reason)),
    }
}

/// `release`.
pub fn release<U: Units<C> + Drop, C: MessageCodec + Drop>(
    run_state: &mut RunState<U, C>,
    ue: UeId,
    lines: &mut Lines,
) -> Result<(), Cause>
    requires { U.ready run_state.old.units }
    ensures ready { OnOk result (U.ready run_state.new.units) }
    ensures gives { EventGives lines.old
        (release (unit_world C.codec U.answer) ue (state_of (U.records run_state.old.units) run_state.old.core run_state.old.network))
        lines.new (state_of (U.records run_state.new.units) run_state.new.core run_state.new.network) result }
{
    let gnb = match releaser_of(run_state, ue) {
        Ok(gnb) => gnb,
        Err(reason) => {
            lines.push(OutLine::Refused { reason })?;
            return Ok(());
        }
    };
    let moved = match let_go(run_state, gnb, ue, lines) {
        Ok(moved) => moved,
        Err(cause) => return Err(cause),
    };
    moved.show_refused(lines)?;
    Ok(())
}
