//! `attach`: a CU-CP is asked, and where it doesn't refuse the terminal comes.

ghost use Rattle.std.specs.Prelude.{◌≡◌, OnOk, None};
ghost use Rattle.gnb_types.specs.declared.names.NodeId.TheVariants.{CuCp};
ghost use Rattle.gnb_types.specs.declared.inputs.Order.TheVariants as orders;
ghost use Rattle.run_defs.specs.plain_defs.Plain.{IsPlanned};
ghost use Rattle.run_defs.specs.States.{order_for};
ghost use Rattle.run_defs.specs.Steps.{does};
ghost use Rattle.run_defs.specs.Conditions.{has_started};
ghost use Rattle.run_defs.specs.Events.{with_terminal, attach};
ghost use Rattle.run_defs.specs.UnitRuns.{unit_world};
ghost use Rattle.run_links.specs.Networks.{state_of};
ghost use Rattle.world_steps.specs.Gives.{EventGives};
ghost use Rattle.world_steps.specs.Moves.{StepOutcome};
ghost use Rattle.world_events.specs.attaches.Comings.{attach_refusal, with_seat};

use gnb_types::inputs::{Input, Order};
use gnb_types::items::Memory;
use gnb_types::names::NodeId;
use gnb_types::plans::Plan;
use gnb_types::reasons::RefuseReason;
use run_links::lines::Lines;
use scenario_text::line::OutLine;
use unit_messages::MessageCodec;
use world_steps::Units;
use world_steps::asked::{Asked, Moved, moved_by};
use world_steps::cause::Cause;
use world_steps::run_state::RunState;

/// Whether the units of a plan are set up.
fn has_started<U: Units<C> + Drop, C: MessageCodec + Drop>(
    run_state: &RunState<U, C>,
    plan: Plan,
) -> bool
    requires { U.ready run_state.now.units }
    ensures { result ≡ has_started plan (state_of (U.records run_state.now.units) run_state.now.core run_state.now.network) }
{
    let control = run_state.units.cu_control(plan.gnb);
    control.is_set_up(NodeId::CuUp(plan.gnb, plan.up))
        && control.is_set_up(NodeId::Du(plan.gnb, plan.du))
}

fn attach_refusal<U: Units<C> + Drop, C: MessageCodec + Drop>(
    run_state: &RunState<U, C>,
    plan: Plan,
) -> Option<RefuseReason>
    requires { U.ready run_state.now.units }
    ensures { result ≡ attach_refusal plan (state_of (U.records run_state.now.units) run_state.now.core run_state.now.network) }
{
    if run_state.network.was_attached(plan.ue) {
        return Some(RefuseReason::Attached);
    }
    if !has_started(run_state, plan) {
        return Some(RefuseReason::NotStarted);
    }
    None
}

/// A terminal comes.
fn seat<U: Units<C> + Drop, C: MessageCodec + Drop>(
    run_state: &mut RunState<U, C>,
    plan: Plan,
) -> Result<(), Memory>
    requires ready { U.ready run_state.old.units }
    requires planned { IsPlanned plan }
    ensures ready { OnOk result (U.ready run_state.new.units) }
    ensures seats { OnOk result (state_of (U.records run_state.new.units) run_state.new.core run_state.new.network
        ≡ with_seat plan (state_of (U.records run_state.old.units) run_state.old.core run_state.old.network)) }
{
    run_state.units.seat(run_state.alloc, plan)?;
    run_state.network.seat(plan)
}

/// The CU-CP is asked to attach a terminal, which comes before what the CU-CP says goes out. What wasn't made isn't printed.
fn bring<U: Units<C> + Drop, C: MessageCodec + Drop>(
    run_state: &mut RunState<U, C>,
    plan: Plan,
    lines: &mut Lines,
) -> Result<Moved, Cause>
    requires ready { U.ready run_state.old.units }
    requires planned { IsPlanned plan }
    ensures ready { OnOk result (U.ready run_state.new.units) }
    ensures gives { StepOutcome
        (does (unit_world C.codec U.answer) (CuCp plan.gnb) (order_for (orders.Attach plan)) None
        (with_terminal (unit_world C.codec U.answer) plan)
        (state_of (U.records run_state.old.units) run_state.old.core run_state.old.network))
        (record { state = state_of (U.records run_state.old.units) run_state.old.core run_state.old.network; lines = lines.old })
        (record { state = state_of (U.records run_state.new.units) run_state.new.core run_state.new.network; lines = lines.new }) result }
{
    let asked = match run_state.ask(NodeId::CuCp(plan.gnb), Input::Order(Order::Attach(plan))) {
        Ok(asked) => asked,
        Err(cause) => return Err(cause),
    };
    match asked {
        Asked::Does(outputs) => {
            seat(run_state, plan)?;
            moved_by(run_state.finish(NodeId::CuCp(plan.gnb), None, outputs, lines))
        }
        Asked::Holds(reason) => Ok(Moved::Holds(reason)),
        Asked::Refuses(reason) => Ok(Moved::Refuses(reason)),
    }
}

/// `attach`.
pub fn attach<U: Units<C> + Drop, C: MessageCodec + Drop>(
    run_state: &mut RunState<U, C>,
    plan: Plan,
    lines: &mut Lines,
) -> Result<(), Cause>
    requires ready { U.ready run_state.old.units }
    requires planned { IsPlanned plan }
    ensures ready { OnOk result (U.ready run_state.new.units) }
    ensures gives { EventGives lines.old
        (attach (unit_world C.codec U.answer) plan (state_of (U.records run_state.old.units) run_state.old.core run_state.old.network))
        lines.new (state_of (U.records run_state.new.units) run_state.new.core run_state.new.network) result }
{
    if let Some(reason) = attach_refusal(run_state, plan) {
        lines.push(OutLine::Refused { reason })?;
        return Ok(());
    }
    let moved = match bring(run_state, plan, lines) {
        Ok(moved) => moved,
        Err(cause) => return Err(cause),
    };
    moved.show_refused(lines)?;
    Ok(())
}
