//! `fail`, `arrive` and `return`: the terminal's state decides.

ghost use Rattle.std.specs.Prelude.{◌≡◌, OnOk};
ghost use Rattle.unit_defs.specs.Ue.{is_connected, is_accessing, may_return};
ghost use Rattle.run_defs.specs.Events.{fail, arrive, come_back};
ghost use Rattle.run_defs.specs.UnitRuns.{unit_world};
ghost use Rattle.run_links.specs.Networks.{state_of};
ghost use Rattle.world_steps.specs.Gives.{EventGives};
ghost use Rattle.world_events.specs.orders.Orders.{fail_order, arrive_order, return_order};

use crate::orders::ordering::{Ordered, give_order};
use gnb_types::inputs::Order;
use gnb_types::names::{NodeId, UeId};
use gnb_types::reasons::RefuseReason;
use run_links::lines::Lines;
use unit_defs::UeState;
use unit_messages::MessageCodec;
use world_steps::Units;
use world_steps::cause::Cause;
use world_steps::run_state::RunState;

fn is_connected(state: UeState) -> bool
    ensures { result ≡ is_connected state }
{
    matches!(state, UeState::Connected)
}

fn is_accessing(state: UeState) -> bool
    ensures { result ≡ is_accessing state }
{
    matches!(state, UeState::Accessing)
}

/// Whether a terminal in this state may return to its home.
fn may_return(state: UeState) -> bool
    ensures { result ≡ may_return state }
{
    matches!(state, UeState::Lost | UeState::Accessing)
}

fn fail_order<U: Units<C> + Drop, C: MessageCodec + Drop>(
    run_state: &RunState<U, C>,
    ue: UeId,
) -> Ordered
    requires { U.ready run_state.now.units }
    ensures { result ≡ fail_order (state_of (U.records run_state.now.units) run_state.now.core run_state.now.network) ue }
{
    if !run_state.network.is_attached(ue) {
        return Err(RefuseReason::NoUe);
    }
    if is_connected(run_state.state_at(ue)) {
        Ok((NodeId::Ue(ue.0), Order::Fail(ue)))
    } else {
        Err(RefuseReason::NoRadio)
    }
}

fn arrive_order<U: Units<C> + Drop, C: MessageCodec + Drop>(
    run_state: &RunState<U, C>,
    ue: UeId,
) -> Ordered
    requires { U.ready run_state.now.units }
    ensures { result ≡ arrive_order (state_of (U.records run_state.now.units) run_state.now.core run_state.now.network) ue }
{
    if !run_state.network.is_attached(ue) {
        return Err(RefuseReason::NoUe);
    }
    if is_accessing(run_state.state_at(ue)) {
        Ok((NodeId::Ue(ue.0), Order::Arrive(ue)))
    } else {
        Err(RefuseReason::NotAccessing)
    }
}

fn return_order<U: Units<C> + Drop, C: MessageCodec + Drop>(
    run_state: &RunState<U, C>,
    ue: UeId,
) -> Ordered
    requires { U.ready run_state.now.units }
    ensures { result ≡ return_order (state_of (U.records run_state.now.units) run_state.now.core run_state.now.network) ue }
{
    if !run_state.network.is_attached(ue) {
        return Err(RefuseReason::NoUe);
    }
    if !run_state.has_home(ue) {
        return Err(RefuseReason::NoHome);
    }
    if may_return(run_state.state_at(ue)) {
        Ok((NodeId::Ue(ue.0), Order::Return(ue)))
    } else {
        Err(RefuseReason::Busy)
    }
}

/// `fail`.
pub fn fail<U: Units<C> + Drop, C: MessageCodec + Drop>(
    run_state: &mut RunState<U, C>,
    ue: UeId,
    lines: &mut Lines,
) -> Result<(), Cause>
    requires { U.ready run_state.old.units }
    ensures ready { OnOk result (U.ready run_state.new.units) }
    ensures gives { EventGives lines.old
        (fail (unit_world C.codec U.answer) ue (state_of (U.records run_state.old.units) run_state.old.core run_state.old.network))
        lines.new (state_of (U.records run_state.new.units) run_state.new.core run_state.new.network) result }
{
    let order = fail_order(run_state, ue);
    give_order(run_state, order, lines)
}

/// `arrive`.
pub fn arrive<U: Units<C> + Drop, C: MessageCodec + Drop>(
    run_state: &mut RunState<U, C>,
    ue: UeId,
    lines: &mut Lines,
) -> Result<(), Cause>
    requires { U.ready run_state.old.units }
    ensures ready { OnOk result (U.ready run_state.new.units) }
    ensures gives { EventGives lines.old
        (arrive (unit_world C.codec U.answer) ue (state_of (U.records run_state.old.units) run_state.old.core run_state.old.network))
        lines.new (state_of (U.records run_state.new.units) run_state.new.core run_state.new.network) result }
{
    let order = arrive_order(run_state, ue);
    give_order(run_state, order, lines)
}

/// `return`.
pub fn come_back<U: Units<C> + Drop, C: MessageCodec + Drop>(
    run_state: &mut RunState<U, C>,
    ue: UeId,
    lines: &mut Lines,
) -> Result<(), Cause>
    requires { U.ready run_state.old.units }
    ensures ready { OnOk result (U.ready run_state.new.units) }
    ensures gives { EventGives lines.old
        (come_back (unit_world C.codec U.answer) ue (state_of (U.records run_state.old.units) run_state.old.core run_state.old.network))
        lines.new (state_of (U.records run_state.new.units) run_state.new.core run_state.new.network) result }
{
    let order = return_order(run_state, ue);
    give_order(run_state, order, lines)
}
