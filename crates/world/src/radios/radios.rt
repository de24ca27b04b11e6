//! The turns of radios: each that is ready is aired until nothing is uncarried, then acknowledged until nothing is carried, and so on
//! until it is empty.

ghost use Rattle.std.specs.Prelude.{◌≡◌, ◌+◌, ◌*◌, IfOk, OnOk};
ghost use Rattle.gnb_types.specs.Orders.{entity_cmp};
ghost use Rattle.tables.specs.Tables.{at};
ghost use Rattle.transport_defs.specs.Links.{nth, silent};
ghost use Rattle.run_defs.specs.Settling.{Turn as RunTurn, air_next, ack_next, turn_step, turn_times, all_radios, attached_entities};
ghost use Rattle.run_defs.specs.UnitRuns.{unit_world};
ghost use Rattle.run_links.specs.Networks.{OctetState, OctetOutcome, state_of};
ghost use Rattle.world_steps.specs.Gives.{EventGives};
ghost use Rattle.world.specs.radios.RadioTurns.{TurnGives, turn_of, left_of, turned, both_turns, bearer_turns};

use crate::radios::turn::Turn;
use crate::turns::attached::attached_bearers;
use crate::turns::held::show_held;
use gnb_types::items::Memory;
use gnb_types::keys::EntityKey;
use gnb_types::names::{BearerId, Dir, NodeId, UeId};
use run_links::lines::{Lines, radio_link};
use unit_messages::MessageCodec;
use world_steps::Units;
use world_steps::cause::Cause;
use world_steps::packets::radio::{ack_item, air_item};
use world_steps::run_state::RunState;

/// How much more often than items stood on it a radio may be aired, and acknowledged.
const FURTHER_TURNS: u64 = 4096;

/// An item of a radio's turn is carried, where one can be. The answer is what is left of the turn, if anything.
fn air_next<U: Units<C> + Drop, C: MessageCodec + Drop>(
    run_state: &mut RunState<U, C>,
    turn: Turn,
    home: NodeId,
    lines: &mut Lines,
) -> Result<Option<Turn>, Cause>
    requires { U.ready run_state.old.units }
    ensures ready { OnOk result (U.ready run_state.new.units) }
    ensures gives { (again : RunTurn → OctetState → OctetOutcome) → TurnGives lines.old
        (air_next (unit_world C.codec U.answer) again (turn_of turn) home (state_of (U.records run_state.old.units) run_state.old.core run_state.old.network)
        (nth (at entity_cmp silent run_state.old.network.radios.radios turn.key).items (at entity_cmp silent run_state.old.network.radios.radios turn.key).carried))
        again lines.new (state_of (U.records run_state.new.units) run_state.new.core run_state.new.network) (left_of result) }
{
    let left = turn.to_acks();
    if turn.airs == 0 {
        return Ok(Some(left));
    }
    if let None = run_state.network.uncarried(turn.key) {
        return Ok(Some(left));
    }
    let link = radio_link(turn.key, run_state.network.shown_epoch(turn.key.ue));
    let moved = match air_item(run_state, turn.key, home, lines) {
        Ok(moved) => moved,
        Err(cause) => return Err(cause),
    };
    show_held(moved, link, lines)?;
    Ok(Some(turn.aired(moved)))
}

/// An item of a radio's turn is confirmed, where one can be. The answer is what is left of the turn, if anything.
fn ack_next<U: Units<C> + Drop, C: MessageCodec + Drop>(
    run_state: &mut RunState<U, C>,
    turn: Turn,
    home: NodeId,
    lines: &mut Lines,
) -> Result<Option<Turn>, Cause>
    requires { U.ready run_state.old.units }
    ensures ready { OnOk result (U.ready run_state.new.units) }
    ensures gives { (again : RunTurn → OctetState → OctetOutcome) → TurnGives lines.old
        (ack_next (unit_world C.codec U.answer) again (turn_of turn) home (state_of (U.records run_state.old.units) run_state.old.core run_state.old.network)
        (at entity_cmp silent run_state.old.network.radios.radios turn.key).items (at entity_cmp silent run_state.old.network.radios.radios turn.key).carried)
        again lines.new (state_of (U.records run_state.new.units) run_state.new.core run_state.new.network) (left_of result) }
{
    let EntityKey { ue, bearer, dir } = turn.key;
    if run_state.network.radios.length(ue, bearer, dir) == 0 {
        return Ok(None);
    }
    let left = turn.over();
    if turn.acks == 0 {
        return Ok(left);
    }
    if let None = run_state.network.carried(turn.key) {
        return Ok(left);
    }
    match ack_item(run_state, turn.key, home, lines) {
        Ok(_) => Ok(Some(turn.after_ack())),
        Err(cause) => Err(cause),
    }
}

/// One part of a radio's turn. A radio that is no longer ready has had its turn.
fn turn_step<U: Units<C> + Drop, C: MessageCodec + Drop>(
    run_state: &mut RunState<U, C>,
    turn: Turn,
    lines: &mut Lines,
) -> Result<Option<Turn>, Cause>
    requires { U.ready run_state.old.units }
    ensures ready { OnOk result (U.ready run_state.new.units) }
    ensures gives { (again : RunTurn → OctetState → OctetOutcome) → TurnGives lines.old
        (turn_step (unit_world C.codec U.answer) again (turn_of turn) (state_of (U.records run_state.old.units) run_state.old.core run_state.old.network))
        again lines.new (state_of (U.records run_state.new.units) run_state.new.core run_state.new.network) (left_of result) }
{
    let Some(home) = run_state.ready_home(turn.key.ue) else {
        return Ok(None);
    };
    if turn.airing {
        air_next(run_state, turn, home, lines)
    } else {
        ack_next(run_state, turn, home, lines)
    }
}

/// At most so many parts of a radio's turn.
fn turn_times<U: Units<C> + Drop, C: MessageCodec + Drop>(
    run_state: &mut RunState<U, C>,
    turn: Turn,
    times: u64,
    lines: &mut Lines,
) -> Result<(), Cause>
    requires { U.ready run_state.old.units }
    ensures ready { OnOk result (U.ready run_state.new.units) }
    ensures gives { EventGives lines.old
        (turn_times (unit_world C.codec U.answer) times (turn_of turn) (state_of (U.records run_state.old.units) run_state.old.core run_state.old.network))
        lines.new (state_of (U.records run_state.new.units) run_state.new.core run_state.new.network) result }
{
    let mut left = turn;
    for _ in 0..times {
        match turn_step(run_state, left, lines) {
            Ok(Some(next)) => left = next,
            Ok(None) => return Ok(()),
            Err(cause) => return Err(cause),
        }
    }
    Ok(())
}

/// How often a radio on which so many items stand may be aired, and acknowledged, and how many parts its turn has at most: each air and
/// each acknowledgement is followed by two changes between them at most.
fn radio_parts(items: u64) -> Result<(u64, u64), Memory>
    ensures { IfOk result (λ p. p ≡ (items + 4096, 6 * (items + 4096) + 2)) }
{
    // So many items don't fit the memory.
    let most = items.checked_add(FURTHER_TURNS).ok_or(Memory::too_many())?;
    let run_state = most.checked_mul(6).ok_or(Memory::too_many())?;
    let run_state = run_state.checked_add(2).ok_or(Memory::too_many())?;
    Ok((most, run_state))
}

/// The turn of a radio.
fn radio_turn<U: Units<C> + Drop, C: MessageCodec + Drop>(
    run_state: &mut RunState<U, C>,
    key: EntityKey,
    lines: &mut Lines,
) -> Result<(), Cause>
    requires { U.ready run_state.old.units }
    ensures ready { OnOk result (U.ready run_state.new.units) }
    ensures gives { EventGives lines.old
        (turned (unit_world C.codec U.answer) key (state_of (U.records run_state.old.units) run_state.old.core run_state.old.network))
        lines.new (state_of (U.records run_state.new.units) run_state.new.core run_state.new.network) result }
{
    let (most, times) = radio_parts(run_state.network.radios.length(key.ue, key.bearer, key.dir))?;
    let turn = Turn {
        key,
        airs: most,
        acks: most,
        airing: true,
        moved: false,
    };
    turn_times(run_state, turn, times, lines)
}

/// The turns of the radios of a bearer: downlink, and uplink.
fn both_turns<U: Units<C> + Drop, C: MessageCodec + Drop>(
    run_state: &mut RunState<U, C>,
    ue: UeId,
    bearer: BearerId,
    lines: &mut Lines,
) -> Result<(), Cause>
    requires { U.ready run_state.old.units }
    ensures ready { OnOk result (U.ready run_state.new.units) }
    ensures gives { EventGives lines.old
        (both_turns (unit_world C.codec U.answer) ue bearer (state_of (U.records run_state.old.units) run_state.old.core run_state.old.network))
        lines.new (state_of (U.records run_state.new.units) run_state.new.core run_state.new.network) result }
{
    let downlink = EntityKey {
        ue,
        bearer,
        dir: Dir::Dl,
    };
    let uplink = EntityKey {
        ue,
        bearer,
        dir: Dir::Ul,
    };
    match radio_turn(run_state, downlink, lines) {
        Ok(()) => radio_turn(run_state, uplink, lines),
        Err(cause) => Err(cause),
    }
}

/// The same of each of these bearers, in order.
fn bearer_turns<U: Units<C> + Drop, C: MessageCodec + Drop>(
    run_state: &mut RunState<U, C>,
    bearers: &[(UeId, BearerId)],
    lines: &mut Lines,
) -> Result<(), Cause>
    requires { U.ready run_state.old.units }
    ensures ready { OnOk result (U.ready run_state.new.units) }
    ensures gives { EventGives lines.old
        (bearer_turns (unit_world C.codec U.answer) bearers.now (state_of (U.records run_state.old.units) run_state.old.core run_state.old.network))
        lines.new (state_of (U.records run_state.new.units) run_state.new.core run_state.new.network) result }
{
    for (ue, bearer) in bearers {
        match both_turns(run_state, *ue, *bearer, lines) {
            Ok(()) => {}
            Err(cause) => return Err(cause),
        }
    }
    Ok(())
}

/// Each radio of an attached terminal has its turn.
pub fn all_radios<U: Units<C> + Drop, C: MessageCodec + Drop>(
    run_state: &mut RunState<U, C>,
    lines: &mut Lines,
) -> Result<(), Cause>
    requires { U.ready run_state.old.units }
    ensures ready { OnOk result (U.ready run_state.new.units) }
    ensures gives { EventGives lines.old
        (all_radios (unit_world C.codec U.answer) (attached_entities (state_of (U.records run_state.old.units) run_state.old.core run_state.old.network))
        (state_of (U.records run_state.old.units) run_state.old.core run_state.old.network))
        lines.new (state_of (U.records run_state.new.units) run_state.new.core run_state.new.network) result }
{
    let bearers = attached_bearers(run_state.alloc, &run_state.network)?;
    bearer_turns(run_state, bearers.as_slice(), lines)
}
