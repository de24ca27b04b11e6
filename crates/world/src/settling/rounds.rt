//! A round: terminals move, control messages are given, tunnels and radios have their turns, bearers are polled, and each unit has a tick.

ghost use Rattle.std.specs.Prelude.{OnOk};
ghost use Rattle.run_defs.specs.Settling.{round};
ghost use Rattle.run_defs.specs.UnitRuns.{unit_world};
ghost use Rattle.run_links.specs.Networks.{state_of};
ghost use Rattle.world_steps.specs.Gives.{EventGives};
ghost use Rattle.world.specs.settling.Rounds.{opening, packets_move};

use crate::radios::radios::all_radios;
use crate::turns::orders::{move_each, poll_each};
use crate::turns::tunnels::all_tunnels;
use run_links::lines::Lines;
use unit_messages::MessageCodec;
use world_steps::Units;
use world_steps::cause::Cause;
use world_steps::control_messages::pumps::pump;
use world_steps::control_messages::turns::tick;
use world_steps::run_state::RunState;

/// The first parts of a round: terminals move, control messages are given, and tunnels have their turns.
fn opening<U: Units<C> + Drop, C: MessageCodec + Drop>(
    run_state: &mut RunState<U, C>,
    lines: &mut Lines,
) -> Result<(), Cause>
    requires { U.ready run_state.old.units }
    ensures ready { OnOk result (U.ready run_state.new.units) }
    ensures gives { EventGives lines.old
        (opening (unit_world C.codec U.answer) (state_of (U.records run_state.old.units) run_state.old.core run_state.old.network))
        lines.new (state_of (U.records run_state.new.units) run_state.new.core run_state.new.network) result }
{
    match move_each(run_state, lines) {
        Ok(()) => {}
        Err(cause) => return Err(cause),
    }
    match pump(run_state, lines) {
        Ok(()) => {}
        Err(cause) => return Err(cause),
    }
    all_tunnels(run_state, lines)
}

/// The same, and then radios have their turns, and bearers are polled.
fn packets_move<U: Units<C> + Drop, C: MessageCodec + Drop>(
    run_state: &mut RunState<U, C>,
    lines: &mut Lines,
) -> Result<(), Cause>
    requires { U.ready run_state.old.units }
    ensures ready { OnOk result (U.ready run_state.new.units) }
    ensures gives { EventGives lines.old
        (packets_move (unit_world C.codec U.answer) (state_of (U.records run_state.old.units) run_state.old.core run_state.old.network))
        lines.new (state_of (U.records run_state.new.units) run_state.new.core run_state.new.network) result }
{
    match opening(run_state, lines) {
        Ok(()) => {}
        Err(cause) => return Err(cause),
    }
    match all_radios(run_state, lines) {
        Ok(()) => {}
        Err(cause) => return Err(cause),
    }
    poll_each(run_state, lines)
}

/// A round.
pub fn round<U: Units<C> + Drop, C: MessageCodec + Drop>(
    run_state: &mut RunState<U, C>,
    lines: &mut Lines,
) -> Result<(), Cause>
    requires { U.ready run_state.old.units }
    ensures ready { OnOk result (U.ready run_state.new.units) }
    ensures gives { EventGives lines.old
        (round (unit_world C.codec U.answer) (state_of (U.records run_state.old.units) run_state.old.core run_state.old.network))
        lines.new (state_of (U.records run_state.new.units) run_state.new.core run_state.new.network) result }
{
    match packets_move(run_state, lines) {
        Ok(()) => {}
        Err(cause) => return Err(cause),
    }
    match pump(run_state, lines) {
        Ok(()) => {}
        Err(cause) => return Err(cause),
    }
    tick(run_state, lines)
}
