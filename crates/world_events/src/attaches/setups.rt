//! `static`: a terminal is set up without messages, as if an attach had run.

ghost use Rattle.std.specs.Prelude.{◌≡◌, ◌||◌, OnOk};
ghost use Rattle.run_defs.specs.plain_defs.Plain.{IsPlanned};
ghost use Rattle.unit_defs.specs.Accessors.{cu_up_has_context, du_epoch};
ghost use Rattle.run_defs.specs.Units.{cu_up_of, du_of};
ghost use Rattle.run_defs.specs.States.{was_attached};
ghost use Rattle.run_defs.specs.Conditions.{is_held_by_units};
ghost use Rattle.run_defs.specs.Events.{static};
ghost use Rattle.run_defs.specs.UnitRuns.{unit_world};
ghost use Rattle.run_links.specs.Networks.{state_of};
ghost use Rattle.world_steps.specs.Gives.{EventGives};

use crate::attaches::keeping::{keep_path, keep_terminal};
use cu_user::PlaceError;
use gnb_types::names::{Gnb, NodeId, UeId};
use gnb_types::plans::Plan;
use gnb_types::reasons::RefuseReason;
use run_links::lines::Lines;
use scenario_text::line::OutLine;
use unit_messages::MessageCodec;
use world_steps::Units;
use world_steps::cause::{Cause, cause_of};
use world_steps::run_state::RunState;

/// Whether a CU-UP has a context of a terminal.
#[tactic(auto, unfolding(tables::specs::Tables::at, tables::specs::Tables::find))]
fn is_at_up<U: Units<C> + Drop, C: MessageCodec + Drop>(
    run_state: &RunState<U, C>,
    gnb: Gnb,
    number: u8,
    ue: UeId,
) -> bool
    requires { U.ready run_state.now.units }
    ensures { result ≡ cu_up_has_context (cu_up_of (U.records run_state.now.units) gnb number) ue }
{
    match run_state.units.cu_user(NodeId::CuUp(gnb, number)) {
        Some(user) => user.has_context(ue),
        None => false,
    }
}

/// The TEID that a CU-UP gives next.
#[tactic(auto, unfolding(tables::specs::Tables::at, tables::specs::Tables::find))]
fn next_at_up<U: Units<C> + Drop, C: MessageCodec + Drop>(
    run_state: &RunState<U, C>,
    gnb: Gnb,
    number: u8,
) -> u32
    requires { U.ready run_state.now.units }
    ensures { result ≡ (cu_up_of (U.records run_state.now.units) gnb number).next_teid }
{
    match run_state.units.cu_user(NodeId::CuUp(gnb, number)) {
        Some(user) => user.next_teid(),
        None => 1,
    }
}

/// The epoch of a terminal's context at a DU.
#[tactic(auto, unfolding(tables::specs::Tables::at, tables::specs::Tables::find))]
fn epoch_at_du<U: Units<C> + Drop, C: MessageCodec + Drop>(
    run_state: &RunState<U, C>,
    gnb: Gnb,
    number: u8,
    ue: UeId,
) -> Option<u32>
    requires { U.ready run_state.now.units }
    ensures { result ≡ du_epoch (du_of (U.records run_state.now.units) gnb number) ue }
{
    run_state.units.du_node(NodeId::Du(gnb, number))?.epoch(ue)
}

/// The TEID that a DU gives next.
#[tactic(auto, unfolding(tables::specs::Tables::at, tables::specs::Tables::find))]
fn next_at_du<U: Units<C> + Drop, C: MessageCodec + Drop>(
    run_state: &RunState<U, C>,
    gnb: Gnb,
    number: u8,
) -> u32
    requires { U.ready run_state.now.units }
    ensures { result ≡ (du_of (U.records run_state.now.units) gnb number).next_teid }
{
    match run_state.units.du_node(NodeId::Du(gnb, number)) {
        Some(node) => node.next_teid(),
        None => 1,
    }
}

/// Whether a unit of its plan holds a terminal.
fn is_held<U: Units<C> + Drop, C: MessageCodec + Drop>(
    run_state: &RunState<U, C>,
    plan: Plan,
) -> bool
    requires { U.ready run_state.now.units }
    ensures { result ≡ is_held_by_units plan (U.records run_state.now.units) }
{
    run_state
        .units
        .cu_control(plan.gnb)
        .place(plan.ue)
        .is_some()
        || is_at_up(run_state, plan.gnb, plan.up, plan.ue)
        || epoch_at_du(run_state, plan.gnb, plan.du, plan.ue).is_some()
}

/// Whether a terminal was ever attached, or a unit of its plan holds it.
fn is_known<U: Units<C> + Drop, C: MessageCodec + Drop>(
    run_state: &RunState<U, C>,
    plan: Plan,
) -> bool
    requires { U.ready run_state.now.units }
    ensures { result ≡ (was_attached (state_of (U.records run_state.now.units) run_state.now.core run_state.now.network) plan.ue
        || is_held_by_units plan (U.records run_state.now.units)) }
{
    run_state.network.was_attached(plan.ue) || is_held(run_state, plan)
}

/// `static`.
pub fn set_up<U: Units<C> + Drop, C: MessageCodec + Drop>(
    run_state: &mut RunState<U, C>,
    plan: Plan,
    lines: &mut Lines,
) -> Result<(), Cause>
    requires ready { U.ready run_state.old.units }
    requires planned { IsPlanned plan }
    ensures ready { OnOk result (U.ready run_state.new.units) }
    ensures gives { EventGives lines.old
        (static (unit_world C.codec U.answer) plan (state_of (U.records run_state.old.units) run_state.old.core run_state.old.network))
        lines.new (state_of (U.records run_state.new.units) run_state.new.core run_state.new.network) result }
{
    if is_known(run_state, plan) {
        lines.push(OutLine::Refused {
            reason: RefuseReason::Attached,
        })?;
        return Ok(());
    }
    let up = next_at_up(run_state, plan.gnb, plan.up);
    let du = next_at_du(run_state, plan.gnb, plan.du);
    match run_state.units.place_static(run_state.alloc, plan) {
        Ok(()) => {
            keep_path(&mut run_state.core, run_state.alloc, plan, up)?;
            keep_terminal(&mut run_state.network, plan, up, du)?;
            Ok(())
        }
        Err(PlaceError::NoQuota) => {
            lines.push(OutLine::Refused {
                reason: RefuseReason::Quota,
            })?;
            Ok(())
        }
        Err(PlaceError::Step(error)) => Err(cause_of(error)),
    }
}
