//! The turns of tunnels: each is got until it is empty or holds, at most as often as items stood on it when its turn began.

ghost use Rattle.std.specs.Prelude.{[], OnOk};
ghost use Rattle.gnb_types.specs.Orders.{tunnel_cmp};
ghost use Rattle.tables.specs.Tables.{at};
ghost use Rattle.run_defs.specs.Settling.{get_items, get_times, tunnel_turn, all_tunnels};
ghost use Rattle.run_defs.specs.UnitRuns.{unit_world};
ghost use Rattle.run_links.specs.Networks.{OctetState, OctetOutcome, state_of};
ghost use Rattle.world_steps.specs.Gives.{EventGives};
ghost use Rattle.world.specs.turns.Turns.{PartGives};

use crate::turns::held::{is_made, show_held};
use gnb_types::keys::TunnelEnd;
use run_links::lines::{Lines, tunnel_link};
use unit_messages::MessageCodec;
use world_steps::Units;
use world_steps::cause::Cause;
use world_steps::packets::gets::get_item;
use world_steps::run_state::RunState;

/// How many tunnels there can be: the TEIDs of eight nodes.
const MOST_TUNNELS: u64 = 8 << 32;

/// One item of a tunnel's turn is given to its end. The answer is whether the turn goes on.
fn get_next<U: Units<C> + Drop, C: MessageCodec + Drop>(
    run_state: &mut RunState<U, C>,
    end: TunnelEnd,
    lines: &mut Lines,
) -> Result<bool, Cause>
    requires { U.ready run_state.old.units }
    ensures ready { OnOk result (U.ready run_state.new.units) }
    ensures gives { (more : OctetState → OctetOutcome) → PartGives lines.old
        (get_items (unit_world C.codec U.answer) end more (state_of (U.records run_state.old.units) run_state.old.core run_state.old.network)
        (at tunnel_cmp [] run_state.old.network.tunnels.tunnels end))
        more lines.new (state_of (U.records run_state.new.units) run_state.new.core run_state.new.network) result }
{
    if let Err(_) = run_state.network.oldest(end) {
        return Ok(false);
    }
    let moved = match get_item(run_state, end, lines) {
        Ok(moved) => moved,
        Err(cause) => return Err(cause),
    };
    show_held(moved, tunnel_link(end), lines)?;
    Ok(is_made(moved))
}

/// At most so many items of a tunnel are given to its end.
fn get_times<U: Units<C> + Drop, C: MessageCodec + Drop>(
    run_state: &mut RunState<U, C>,
    end: TunnelEnd,
    times: u64,
    lines: &mut Lines,
) -> Result<(), Cause>
    requires { U.ready run_state.old.units }
    ensures ready { OnOk result (U.ready run_state.new.units) }
    ensures gives { EventGives lines.old
        (get_times (unit_world C.codec U.answer) end times (state_of (U.records run_state.old.units) run_state.old.core run_state.old.network))
        lines.new (state_of (U.records run_state.new.units) run_state.new.core run_state.new.network) result }
{
    for _ in 0..times {
        match get_next(run_state, end, lines) {
            Ok(true) => {}
            Ok(false) => return Ok(()),
            Err(cause) => return Err(cause),
        }
    }
    Ok(())
}

/// The turn of a tunnel.
fn tunnel_turn<U: Units<C> + Drop, C: MessageCodec + Drop>(
    run_state: &mut RunState<U, C>,
    end: TunnelEnd,
    lines: &mut Lines,
) -> Result<(), Cause>
    requires { U.ready run_state.old.units }
    ensures ready { OnOk result (U.ready run_state.new.units) }
    ensures gives { EventGives lines.old
        (tunnel_turn (unit_world C.codec U.answer) end (state_of (U.records run_state.old.units) run_state.old.core run_state.old.network))
        lines.new (state_of (U.records run_state.new.units) run_state.new.core run_state.new.network) result }
{
    let times = run_state.network.tunnels.length(end.node, end.teid);
    get_times(run_state, end, times, lines)
}

/// Each tunnel has its turn, from place to place, so that one which is opened further on has its turn too.
pub fn all_tunnels<U: Units<C> + Drop, C: MessageCodec + Drop>(
    run_state: &mut RunState<U, C>,
    lines: &mut Lines,
) -> Result<(), Cause>
    requires { U.ready run_state.old.units }
    ensures ready { OnOk result (U.ready run_state.new.units) }
    ensures gives { EventGives lines.old
        (all_tunnels (unit_world C.codec U.answer) (state_of (U.records run_state.old.units) run_state.old.core run_state.old.network))
        lines.new (state_of (U.records run_state.new.units) run_state.new.core run_state.new.network) result }
{
    let mut place = None;
    for _ in 0..MOST_TUNNELS {
        let Some((node, teid)) = run_state.network.tunnels.after(place) else {
            return Ok(());
        };
        match tunnel_turn(run_state, TunnelEnd { node, teid }, lines) {
            Ok(()) => {}
            Err(cause) => return Err(cause),
        }
        place = Some((node, teid));
    }
    Ok(())
}
