//! Orders of a round, of which nothing is printed where they can't apply: terminals that move, and bearers that are polled.

ghost use Rattle.std.specs.Prelude.{◌≡◌, OnOk};
ghost use Rattle.gnb_types.specs.declared.inputs.Input.TheVariants as ins;
ghost use Rattle.run_defs.specs.Settling.{attached_plans, attached_bearers, quiet_order, move_by, move_each, poll_at, poll_each};
ghost use Rattle.run_defs.specs.Conditions.{serving_place, state_at};
ghost use Rattle.run_defs.specs.UnitRuns.{unit_world};
ghost use Rattle.run_links.specs.Networks.{state_of};
ghost use Rattle.run_units.specs.Steps.{IsThere};
ghost use Rattle.world_steps.specs.Gives.{EventGives};
ghost use Rattle.world.specs.turns.Turns.{move_terminals};

use crate::turns::attached::{attached_bearers, attached_terminals};
use gnb_types::inputs::{Input, Order};
use gnb_types::names::{BearerId, NodeId, UeId};
use run_links::lines::Lines;
use unit_defs::UeState;
use unit_messages::MessageCodec;
use world_steps::Units;
use world_steps::cause::Cause;
use world_steps::run_state::RunState;

/// An order to a unit, of which nothing is printed where it can't apply.
fn quiet_order<U: Units<C> + Drop, C: MessageCodec + Drop>(
    run_state: &mut RunState<U, C>,
    node: NodeId,
    order: Order,
    lines: &mut Lines,
) -> Result<(), Cause>
    requires ready { U.ready run_state.old.units }
    requires there { IsThere (U.records run_state.old.units) node (ins.Order order) }
    ensures ready { OnOk result (U.ready run_state.new.units) }
    ensures gives { EventGives lines.old
        (quiet_order (unit_world C.codec U.answer) node order (state_of (U.records run_state.old.units) run_state.old.core run_state.old.network))
        lines.new (state_of (U.records run_state.new.units) run_state.new.core run_state.new.network) result }
{
    match run_state.try_step(node, Input::Order(order), lines) {
        Ok(_) => Ok(()),
        Err(cause) => Err(cause),
    }
}

/// A terminal that is accessing arrives, and one that lost its radio returns, where it was ever connected.
fn move_one<U: Units<C> + Drop, C: MessageCodec + Drop>(
    run_state: &mut RunState<U, C>,
    ue: UeId,
    lines: &mut Lines,
) -> Result<(), Cause>
    requires { U.ready run_state.old.units }
    ensures ready { OnOk result (U.ready run_state.new.units) }
    ensures gives { EventGives lines.old
        (move_by (unit_world C.codec U.answer) ue (state_of (U.records run_state.old.units) run_state.old.core run_state.old.network)
        (state_at (state_of (U.records run_state.old.units) run_state.old.core run_state.old.network) ue))
        lines.new (state_of (U.records run_state.new.units) run_state.new.core run_state.new.network) result }
{
    match run_state.state_at(ue) {
        UeState::Accessing => quiet_order(run_state, NodeId::Ue(ue.0), Order::Arrive(ue), lines),
        UeState::Lost => {
            if !run_state.has_home(ue) {
                return Ok(());
            }
            quiet_order(run_state, NodeId::Ue(ue.0), Order::Return(ue), lines)
        }
        UeState::Idle | UeState::Connected | UeState::Returning => Ok(()),
    }
}

/// The same of each of these terminals, in order.
fn move_terminals<U: Units<C> + Drop, C: MessageCodec + Drop>(
    run_state: &mut RunState<U, C>,
    terminals: &[UeId],
    lines: &mut Lines,
) -> Result<(), Cause>
    requires { U.ready run_state.old.units }
    ensures ready { OnOk result (U.ready run_state.new.units) }
    ensures gives { EventGives lines.old
        (move_terminals (unit_world C.codec U.answer) terminals.now (state_of (U.records run_state.old.units) run_state.old.core run_state.old.network))
        lines.new (state_of (U.records run_state.new.units) run_state.new.core run_state.new.network) result }
{
    for ue in terminals {
        match move_one(run_state, *ue, lines) {
            Ok(()) => {}
            Err(cause) => return Err(cause),
        }
    }
    Ok(())
}

/// Each attached terminal that is accessing arrives, and each that lost its radio returns.
pub fn move_each<U: Units<C> + Drop, C: MessageCodec + Drop>(
    run_state: &mut RunState<U, C>,
    lines: &mut Lines,
) -> Result<(), Cause>
    requires { U.ready run_state.old.units }
    ensures ready { OnOk result (U.ready run_state.new.units) }
    ensures gives { EventGives lines.old
        (move_each (unit_world C.codec U.answer) (attached_plans (state_of (U.records run_state.old.units) run_state.old.core run_state.old.network))
        (state_of (U.records run_state.old.units) run_state.old.core run_state.old.network))
        lines.new (state_of (U.records run_state.new.units) run_state.new.core run_state.new.network) result }
{
    let terminals = attached_terminals(run_state.alloc, &run_state.network)?;
    move_terminals(run_state, terminals.as_slice(), lines)
}

/// A bearer is polled, where a downlink packet of it is unconfirmed.
fn poll_one<U: Units<C> + Drop, C: MessageCodec + Drop>(
    run_state: &mut RunState<U, C>,
    bearer: (UeId, BearerId),
    lines: &mut Lines,
) -> Result<(), Cause>
    requires { U.ready run_state.old.units }
    ensures ready { OnOk result (U.ready run_state.new.units) }
    ensures gives { EventGives lines.old
        (poll_at (unit_world C.codec U.answer) bearer (state_of (U.records run_state.old.units) run_state.old.core run_state.old.network)
        (serving_place (state_of (U.records run_state.old.units) run_state.old.core run_state.old.network) bearer.0))
        lines.new (state_of (U.records run_state.new.units) run_state.new.core run_state.new.network) result }
{
    let (ue, number) = bearer;
    let Some((up, _)) = run_state.serving_place(ue) else {
        return Ok(());
    };
    let gnb = run_state.serving_gnb(ue);
    if !run_state.is_unconfirmed(gnb, up, ue, number) {
        return Ok(());
    }
    quiet_order(
        run_state,
        NodeId::CuUp(gnb, up),
        Order::Poll(ue, number),
        lines,
    )
}

/// The same of each of these bearers, in order.
fn poll_bearers<U: Units<C> + Drop, C: MessageCodec + Drop>(
    run_state: &mut RunState<U, C>,
    bearers: &[(UeId, BearerId)],
    lines: &mut Lines,
) -> Result<(), Cause>
    requires { U.ready run_state.old.units }
    ensures ready { OnOk result (U.ready run_state.new.units) }
    ensures gives { EventGives lines.old
        (poll_each (unit_world C.codec U.answer) bearers.now (state_of (U.records run_state.old.units) run_state.old.core run_state.old.network))
        lines.new (state_of (U.records run_state.new.units) run_state.new.core run_state.new.network) result }
{
    for bearer in bearers {
        match poll_one(run_state, *bearer, lines) {
            Ok(()) => {}
            Err(cause) => return Err(cause),
        }
    }
    Ok(())
}

/// Each bearer of an attached terminal is polled, where a downlink packet of it is unconfirmed.
pub fn poll_each<U: Units<C> + Drop, C: MessageCodec + Drop>(
    run_state: &mut RunState<U, C>,
    lines: &mut Lines,
) -> Result<(), Cause>
    requires { U.ready run_state.old.units }
    ensures ready { OnOk result (U.ready run_state.new.units) }
    ensures gives { EventGives lines.old
        (poll_each (unit_world C.codec U.answer) (attached_bearers (state_of (U.records run_state.old.units) run_state.old.core run_state.old.network))
        (state_of (U.records run_state.old.units) run_state.old.core run_state.old.network))
        lines.new (state_of (U.records run_state.new.units) run_state.new.core run_state.new.network) result }
{
    let bearers = attached_bearers(run_state.alloc, &run_state.network)?;
    poll_bearers(run_state, bearers.as_slice(), lines)
}
