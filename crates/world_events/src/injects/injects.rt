//! `inject`: octets from outside that don't decode are given to a node, as a control message or as an item of a tunnel.

ghost use Rattle.std.specs.Prelude.{◌≡◌, IfOk, OnOk};
ghost use Rattle.gnb_types.specs.declared.names.NodeId.TheVariants.{Core};
ghost use Rattle.gnb_types.specs.declared.inputs.Input.TheVariants as ins;
ghost use Rattle.run_defs.specs.Events.{inject_message, inject_item, inject_to};
ghost use Rattle.run_defs.specs.UnitRuns.{unit_world};
ghost use Rattle.run_links.specs.Networks.{state_of};
ghost use Rattle.world_steps.specs.Gives.{EventGives};

use crate::injects::decoding::{is_item, is_message};
use crate::injects::interfaces::is_interface;
use gnb_types::inputs::Input;
use gnb_types::items::{Items, Memory};
use gnb_types::keys::TunnelEnd;
use gnb_types::names::NodeId;
use gnb_types::octets::Octets;
use gnb_types::reasons::RefuseReason;
use run_links::lines::Lines;
use scenario_text::line::OutLine;
use unit_messages::MessageCodec;
use unit_messages::lawful_codecs::LawfulCodec;
use world_steps::Units;
use world_steps::cause::Cause;
use world_steps::run_state::RunState;

/// Octets as a unit takes them for a control message.
fn message_input(from: NodeId, octets: &Octets) -> Result<Input, Memory>
    ensures { IfOk result (λ input. input ≡ ins.Control from octets.now) }
{
    let bytes = octets.clone()?;
    Ok(Input::Control { from, bytes })
}

/// Octets as a unit takes them for an item of a tunnel.
fn item_input(teid: u32, octets: &Octets) -> Result<Input, Memory>
    ensures { IfOk result (λ input. input ≡ ins.Packet teid octets.now) }
{
    let bytes = octets.clone()?;
    Ok(Input::Packet { teid, bytes })
}

/// The core is given octets that are no message.
fn inject_to_core<U: Units<C> + Drop, C: MessageCodec + Drop>(
    run_state: &mut RunState<U, C>,
    from: NodeId,
    octets: &Octets,
    lines: &mut Lines,
) -> Result<(), Cause>
    ensures units { run_state.new.units ≡ run_state.old.units }
    ensures gives { EventGives lines.old
        (inject_to (unit_world C.codec U.answer) from Core octets.now
        (state_of (U.records run_state.old.units) run_state.old.core run_state.old.network))
        lines.new (state_of (U.records run_state.new.units) run_state.new.core run_state.new.network) result }
{
    let mut outputs = Items::new(run_state.alloc);
    let octets = octets.as_slice();
    // What can't be read spends no counter, so that only memory is left; nor is a message put for it, so that there is room.
    if let Err(_) = run_state.core.step(
        run_state.alloc,
        &run_state.codec,
        from,
        octets,
        &mut outputs,
    ) {
        return Err(Cause::Memory);
    }
    if run_state.network.too_many_control_messages(&outputs) {
        return Err(Cause::Memory);
    }
    run_state
        .network
        .put_out_all(NodeId::Core, None, outputs, lines)?;
    run_state.look_at_spans()
}

/// A node is given octets that are no message.
fn inject_to<U: Units<C> + Drop, C: MessageCodec + Drop>(
    run_state: &mut RunState<U, C>,
    from: NodeId,
    to: NodeId,
    octets: &Octets,
    lines: &mut Lines,
) -> Result<(), Cause>
    requires { U.ready run_state.old.units }
    ensures ready { OnOk result (U.ready run_state.new.units) }
    ensures gives { EventGives lines.old
        (inject_to (unit_world C.codec U.answer) from to octets.now
        (state_of (U.records run_state.old.units) run_state.old.core run_state.old.network))
        lines.new (state_of (U.records run_state.new.units) run_state.new.core run_state.new.network) result }
{
    if let NodeId::Core = to {
        return inject_to_core(run_state, from, octets, lines);
    }
    let input = message_input(from, octets)?;
    run_state.step(to, input, lines)
}

/// `inject` of a control message.
#[tactic(auto, unfolding(run_defs::specs::Events::inject_message))]
pub fn inject_message<U: Units<C> + Drop, C: MessageCodec + Drop>(
    run_state: &mut RunState<U, C>,
    from: NodeId,
    to: NodeId,
    octets: &Octets,
    lines: &mut Lines,
) -> Result<(), Cause>
    requires { U.ready run_state.old.units }
    ensures ready { OnOk result (U.ready run_state.new.units) }
    ensures gives { EventGives lines.old
        (inject_message (unit_world C.codec U.answer) from to octets.now
        (state_of (U.records run_state.old.units) run_state.old.core run_state.old.network))
        lines.new (state_of (U.records run_state.new.units) run_state.new.core run_state.new.network) result }
{
    if !is_interface(&run_state.network, from, to) {
        lines.push(OutLine::Refused {
            reason: RefuseReason::NoLink,
        })?;
        return Ok(());
    }
    if is_message(run_state, from, to, octets)? {
        lines.push(OutLine::Refused {
            reason: RefuseReason::Decodable,
        })?;
        return Ok(());
    }
    inject_to(run_state, from, to, octets, lines)
}

/// `inject` of an item of a tunnel.
#[tactic(auto, unfolding(run_defs::specs::Events::inject_item))]
pub fn inject_item<U: Units<C> + Drop, C: LawfulCodec + Drop>(
    run_state: &mut RunState<U, C>,
    end: TunnelEnd,
    octets: &Octets,
    lines: &mut Lines,
) -> Result<(), Cause>
    requires { U.ready run_state.old.units }
    ensures ready { OnOk result (U.ready run_state.new.units) }
    ensures gives { EventGives lines.old
        (inject_item (unit_world C.codec U.answer) end octets.now
        (state_of (U.records run_state.old.units) run_state.old.core run_state.old.network))
        lines.new (state_of (U.records run_state.new.units) run_state.new.core run_state.new.network) result }
{
    if let Err(RefuseReason::NoSuch) = run_state.network.oldest(end) {
        lines.push(OutLine::Refused {
            reason: RefuseReason::NoSuch,
        })?;
        return Ok(());
    }
    if is_item(run_state, end, octets) {
        lines.push(OutLine::Refused {
            reason: RefuseReason::Decodable,
        })?;
        return Ok(());
    }
    let input = item_input(end.teid, octets)?;
    run_state.step(end.node, input, lines)
}
