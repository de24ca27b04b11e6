//! `offer`: a packet of a bearer comes from above, at the core or at the terminal.

ghost use Rattle.std.specs.Prelude.{◌≡◌, ◌≤◌, length, IfOk, OnOk};
ghost use Rattle.scenario_text.specs.script_words.Ranges.{IsPacket};
ghost use Rattle.gnb_types.specs.declared.inputs.Input.TheVariants as ins;
ghost use Rattle.link_defs.specs.Decoding.{IsSized};
ghost use Rattle.unit_defs.specs.Ue.{largest_packet};
ghost use Rattle.run_defs.specs.Events.{offer, offer_down, offer_up};
ghost use Rattle.run_defs.specs.UnitRuns.{unit_world};
ghost use Rattle.run_links.specs.Networks.{state_of};
ghost use Rattle.world_steps.specs.Gives.{Gives, EventGives};
ghost use Rattle.world_steps.specs.Moves.{StepOutcome};
ghost use Rattle.world_events.specs.bearers.Places.{core_end, downlink_item, core_puts, offer_done};

use core_node::CoreNode;
use gnb_types::inputs::Input;
use gnb_types::items::Memory;
use gnb_types::keys::{EntityKey, TunnelEnd};
use gnb_types::names::{BearerId, Dir, NodeId, UeId};
use gnb_types::octets::Octets;
use gnb_types::reasons::RefuseReason;
use link_packets::write_forwarded_fresh;
use links::items::Item;
use run_links::lines::Lines;
use scenario_text::line::OutLine;
use std::alloc::Global;
use unit_messages::MessageCodec;
use world_steps::Units;
use world_steps::asked::{Asked, Moved, moved_by};
use world_steps::cause::Cause;
use world_steps::run_state::RunState;

/// How many octets a packet has at most.
const LARGEST_PACKET: usize = 2048;

/// The N3 tunnel on which the core puts a packet, or why it doesn't.
fn core_end(
    core: &CoreNode,
    ue: UeId,
    bearer: BearerId,
    packet: &Octets,
) -> Result<TunnelEnd, RefuseReason>
    ensures end { result ≡ core_end core.now ue bearer packet.now }
    ensures fits { IfOk result (λ end. length packet.now ≤ largest_packet) }
{
    let Some(path) = core.path(ue) else {
        return Err(RefuseReason::NoPath);
    };
    if packet.len() > LARGEST_PACKET {
        return Err(RefuseReason::Size);
    }
    Ok(TunnelEnd {
        node: path.up,
        teid: path.teid(bearer),
    })
}

/// A packet as the core puts it on a tunnel.
fn downlink_item(
    alloc: Global,
    ue: UeId,
    bearer: BearerId,
    teid: u32,
    packet: &Octets,
) -> Result<Item, Memory>
    requires { IsSized packet.now }
    ensures { IfOk result (λ item. item ≡ downlink_item ue bearer teid packet.now) }
{
    let content = write_forwarded_fresh(alloc, teid, packet.as_slice())?;
    let dir = Dir::Dl;
    Ok(Item {
        key: EntityKey { ue, bearer, dir },
        count: None,
        content,
    })
}

/// A packet as a terminal takes it.
fn uplink_input(ue: UeId, bearer: BearerId, packet: &Octets) -> Result<Input, Memory>
    ensures { IfOk result (λ input. input ≡ ins.Offer ue bearer packet.now) }
{
    let packet = packet.clone()?;
    Ok(Input::Offer { ue, bearer, packet })
}

/// The core puts a packet on a tunnel.
fn core_puts<U: Units<C> + Drop, C: MessageCodec + Drop>(
    run_state: &mut RunState<U, C>,
    end: TunnelEnd,
    item: Item,
    lines: &mut Lines,
) -> Result<(), Cause>
    ensures units { run_state.new.units ≡ run_state.old.units }
    ensures gives { Gives lines.old
        (core_puts (unit_world C.codec U.answer) end item (state_of (U.records run_state.old.units) run_state.old.core run_state.old.network))
        lines.new (state_of (U.records run_state.new.units) run_state.new.core run_state.new.network) result }
{
    run_state.network.offer(item.key)?;
    run_state.network.put_on_tunnel(end, item, lines)?;
    run_state.look_at_spans()
}

/// `offer` of a downlink packet.
fn offer_down<U: Units<C> + Drop, C: MessageCodec + Drop>(
    run_state: &mut RunState<U, C>,
    ue: UeId,
    bearer: BearerId,
    packet: &Octets,
    lines: &mut Lines,
) -> Result<(), Cause>
    requires { IsPacket packet.now }
    ensures units { run_state.new.units ≡ run_state.old.units }
    ensures gives { EventGives lines.old
        (offer_down (unit_world C.codec U.answer) ue bearer packet.now
        (state_of (U.records run_state.old.units) run_state.old.core run_state.old.network))
        lines.new (state_of (U.records run_state.new.units) run_state.new.core run_state.new.network) result }
{
    match core_end(&run_state.core, ue, bearer, packet) {
        Ok(end) => {
            let item = downlink_item(run_state.alloc, ue, bearer, end.teid, packet)?;
            core_puts(run_state, end, item, lines)
        }
        Err(reason) => {
            lines.push(OutLine::Refused { reason })?;
            Ok(())
        }
    }
}

/// The terminal takes a packet, where it has room. What wasn't made isn't printed.
fn offer_packet<U: Units<C> + Drop, C: MessageCodec + Drop>(
    run_state: &mut RunState<U, C>,
    ue: UeId,
    bearer: BearerId,
    packet: &Octets,
    lines: &mut Lines,
) -> Result<Moved, Cause>
    requires ready { U.ready run_state.old.units }
    requires packet { IsPacket packet.now }
    ensures ready { OnOk result (U.ready run_state.new.units) }
    ensures gives { StepOutcome
        (offer_done (unit_world C.codec U.answer) ue bearer packet.now
        (state_of (U.records run_state.old.units) run_state.old.core run_state.old.network))
        (record { state = state_of (U.records run_state.old.units) run_state.old.core run_state.old.network; lines = lines.old })
        (record { state = state_of (U.records run_state.new.units) run_state.new.core run_state.new.network; lines = lines.new }) result }
{
    let node = NodeId::Ue(ue.0);
    let input = uplink_input(ue, bearer, packet)?;
    let asked = match run_state.ask(node, input) {
        Ok(asked) => asked,
        Err(cause) => return Err(cause),
    };
    match asked {
        Asked::Does(outputs) => {
            let dir = Dir::Ul;
            run_state.network.offer(EntityKey { ue, bearer, dir })?;
            moved_by(run_state.finish(node, None, outputs, lines))
        }
        Asked::Holds(reason) => Ok(Moved::Holds(reason)),
        Asked::Refuses(reason) => Ok(Moved::Refuses(reason)),
    }
}

/// `offer` of an uplink packet.
fn offer_up<U: Units<C> + Drop, C: MessageCodec + Drop>(
    run_state: &mut RunState<U, C>,
    ue: UeId,
    bearer: BearerId,
    packet: &Octets,
    lines: &mut Lines,
) -> Result<(), Cause>
    requires ready { U.ready run_state.old.units }
    requires packet { IsPacket packet.now }
    ensures ready { OnOk result (U.ready run_state.new.units) }
    ensures gives { EventGives lines.old
        (offer_up (unit_world C.codec U.answer) ue bearer packet.now
        (state_of (U.records run_state.old.units) run_state.old.core run_state.old.network))
        lines.new (state_of (U.records run_state.new.units) run_state.new.core run_state.new.network) result }
{
    let moved = match offer_packet(run_state, ue, bearer, packet, lines) {
        Ok(moved) => moved,
        Err(cause) => return Err(cause),
    };
    moved.show_refused(lines)?;
    Ok(())
}

/// `offer`.
#[tactic(auto, unfolding(run_defs::specs::Events::offer))]
pub fn offer<U: Units<C> + Drop, C: MessageCodec + Drop>(
    run_state: &mut RunState<U, C>,
    ue: UeId,
    bearer: BearerId,
    dir: Dir,
    packet: &Octets,
    lines: &mut Lines,
) -> Result<(), Cause>
    requires ready { U.ready run_state.old.units }
    requires packet { IsPacket packet.now }
    ensures ready { OnOk result (U.ready run_state.new.units) }
    ensures gives { EventGives lines.old
        (offer (unit_world C.codec U.answer) ue bearer dir packet.now
        (state_of (U.records run_state.old.units) run_state.old.core run_state.old.network))
        lines.new (state_of (U.records run_state.new.units) run_state.new.core run_state.new.network) result }
{
    if !run_state.network.has_bearer(ue, bearer) {
        lines.push(OutLine::Refused {
            reason: RefuseReason::NoBearer,
        })?;
        return Ok(());
    }
    match dir {
        Dir::Dl => offer_down(run_state, ue, bearer, packet, lines),
        Dir::Ul => offer_up(run_state, ue, bearer, packet, lines),
    }
}
