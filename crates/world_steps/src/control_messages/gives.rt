//! `give`: a control message is given to its receiver.

ghost use Rattle.std.specs.Prelude.{◌≡◌, List, ℕ, Some, None, IfOk, IsSome, OnOk};
ghost use Rattle.gnb_types.specs.declared.names.NodeId.TheVariants.{Core};
ghost use Rattle.gnb_types.specs.declared.inputs.Input.TheVariants as ins;
ghost use Rattle.transport_defs.specs.declared.ControlMessage.{ControlMessage as ControlMessageOf};
ghost use Rattle.transport_defs.specs.Links.{control_message};
ghost use Rattle.run_defs.specs.States.{control_message_for};
ghost use Rattle.run_defs.specs.Steps.{does};
ghost use Rattle.run_defs.specs.Conditions.{takes_control_messages};
ghost use Rattle.run_defs.specs.Events.{landed_as, give_to, give};
ghost use Rattle.run_defs.specs.UnitRuns.{core_answer, unit_world};
ghost use Rattle.run_links.specs.Networks.{state_of};
ghost use Rattle.world_steps.specs.Gives.{EventGives};
ghost use Rattle.world_steps.specs.Moves.{StepOutcome};
ghost use Rattle.world_steps.specs.control_messages.ControlMessages.{CoreGives, to_unit};

use crate::Units;
use crate::asked::{Asked, Moved, moved_by};
use crate::cause::{Cause, cause_of};
use crate::run_state::RunState;
use core_node::CoreNode;
use gnb_types::inputs::Input;
use gnb_types::items::{Items, Memory};
use gnb_types::names::{NodeId, UeId};
use gnb_types::outputs::Outputs;
use gnb_types::reasons::RefuseReason;
use links::bag::Message;
use run_links::lines::Lines;
use scenario_text::line::OutLine;
use std::alloc::Global;
use unit_messages::MessageCodec;

/// A control message, as a unit takes it.
fn control_message_input(control_message: &Message) -> Result<Input, Memory>
    ensures { IfOk result (λ input. input ≡ ins.Control control_message.now.from control_message.now.message) }
{
    let bytes = control_message.message.clone()?;
    Ok(Input::Control {
        from: control_message.from,
        bytes,
    })
}

/// What the core puts when it takes a control message. It spends no counter.
fn core_outputs<C: MessageCodec>(
    core: &mut CoreNode,
    alloc: Global,
    codec: &C,
    control_message: &Message,
) -> Result<Outputs, Cause>
    ensures { CoreGives (core_answer C.codec core.old (control_message_for control_message.now.from control_message.now.message)) core.new result }
{
    let mut outputs = Items::new(alloc);
    let octets = control_message.message.as_slice();
    match core.step(alloc, codec, control_message.from, octets, &mut outputs) {
        Ok(()) => Ok(outputs),
        Err(error) => Err(cause_of(error)),
    }
}

/// Whether a node takes control messages: a terminal that was never there, or is gone, takes none.
fn takes_control_messages<U: Units<C> + Drop, C: MessageCodec + Drop>(
    run_state: &RunState<U, C>,
    node: NodeId,
) -> bool
    requires { U.ready run_state.now.units }
    ensures { result ≡ takes_control_messages (state_of (U.records run_state.now.units) run_state.now.core run_state.now.network) node }
{
    let NodeId::Ue(ue) = node else {
        return true;
    };
    run_state.units.ue_node(UeId(ue)).is_some() && !run_state.network.is_gone(UeId(ue))
}

/// A control message is given to a unit. What wasn't made isn't printed.
fn give_control_message<U: Units<C> + Drop, C: MessageCodec + Drop>(
    run_state: &mut RunState<U, C>,
    node: NodeId,
    number: u32,
    lines: &mut Lines,
) -> Result<Moved, Cause>
    requires { U.ready run_state.old.units }
    ensures ready { OnOk result (U.ready run_state.new.units) }
    ensures gives { (l : ControlMessageOf (List ℕ)) → control_message run_state.old.network.bag number ≡ Some l → StepOutcome
        (does (unit_world C.codec U.answer) node (control_message_for l.from l.message) None (landed_as (unit_world C.codec U.answer) number l)
        (state_of (U.records run_state.old.units) run_state.old.core run_state.old.network))
        (record { state = state_of (U.records run_state.old.units) run_state.old.core run_state.old.network; lines = lines.old })
        (record { state = state_of (U.records run_state.new.units) run_state.new.core run_state.new.network; lines = lines.new }) result }
{
    let input = match run_state.network.control_message(number) {
        Some(control_message) => control_message_input(control_message)?,
        None => return Ok(Moved::Refuses(RefuseReason::NoSuch)),
    };
    let asked = match run_state.ask(node, input) {
        Ok(asked) => asked,
        Err(cause) => return Err(cause),
    };
    match asked {
        Asked::Does(outputs) => {
            run_state.network.land(number, lines)?;
            moved_by(run_state.finish(node, None, outputs, lines))
        }
        Asked::Holds(reason) => Ok(Moved::Holds(reason)),
        Asked::Refuses(reason) => Ok(Moved::Refuses(reason)),
    }
}

/// A control message is given to a unit that takes it; or it lands where no terminal is any more.
fn give_unit<U: Units<C> + Drop, C: MessageCodec + Drop>(
    run_state: &mut RunState<U, C>,
    node: NodeId,
    number: u32,
    lines: &mut Lines,
) -> Result<(), Cause>
    requires ready { U.ready run_state.old.units }
    requires there { IsSome (control_message run_state.old.network.bag number) }
    ensures ready { OnOk result (U.ready run_state.new.units) }
    ensures gives { (l : ControlMessageOf (List ℕ)) → control_message run_state.old.network.bag number ≡ Some l → EventGives lines.old
        (to_unit (unit_world C.codec U.answer) number l node (state_of (U.records run_state.old.units) run_state.old.core run_state.old.network))
        lines.new (state_of (U.records run_state.new.units) run_state.new.core run_state.new.network) result }
{
    if !takes_control_messages(run_state, node) {
        run_state.network.land(number, lines)?;
        return Ok(());
    }
    let moved = match give_control_message(run_state, node, number, lines) {
        Ok(moved) => moved,
        Err(cause) => return Err(cause),
    };
    moved.show_refused(lines)?;
    Ok(())
}

/// A control message is given to the core, where there is room for what it puts.
fn give_core<U: Units<C> + Drop, C: MessageCodec + Drop>(
    run_state: &mut RunState<U, C>,
    number: u32,
    lines: &mut Lines,
) -> Result<(), Cause>
    requires { U.ready run_state.old.units }
    ensures ready { OnOk result (U.ready run_state.new.units) }
    ensures gives { (l : ControlMessageOf (List ℕ)) → control_message run_state.old.network.bag number ≡ Some l → EventGives lines.old
        (give_to (unit_world C.codec U.answer) number l Core (state_of (U.records run_state.old.units) run_state.old.core run_state.old.network))
        lines.new (state_of (U.records run_state.new.units) run_state.new.core run_state.new.network) result }
{
    let put = match run_state.network.control_message(number) {
        Some(control_message) => core_outputs(
            &mut run_state.core,
            run_state.alloc,
            &run_state.codec,
            control_message,
        ),
        None => return Ok(()),
    };
    let outputs = match put {
        Ok(outputs) => outputs,
        Err(cause) => return Err(cause),
    };
    if run_state.network.too_many_control_messages(&outputs) {
        // The first counter is that of control messages.
        return Err(Cause::Spent(1));
    }
    run_state.network.land(number, lines)?;
    run_state.finish(NodeId::Core, None, outputs, lines)
}

/// `give`.
pub fn give<U: Units<C> + Drop, C: MessageCodec + Drop>(
    run_state: &mut RunState<U, C>,
    number: u32,
    lines: &mut Lines,
) -> Result<(), Cause>
    requires { U.ready run_state.old.units }
    ensures ready { OnOk result (U.ready run_state.new.units) }
    ensures gives { EventGives lines.old
        (give (unit_world C.codec U.answer) number (state_of (U.records run_state.old.units) run_state.old.core run_state.old.network))
        lines.new (state_of (U.records run_state.new.units) run_state.new.core run_state.new.network) result }
{
    let receiver = match run_state.network.control_message(number) {
        Some(control_message) => control_message.to,
        None => {
            lines.push(OutLine::Refused {
                reason: RefuseReason::NoSuch,
            })?;
            return Ok(());
        }
    };
    if let NodeId::Core = receiver {
        return give_core(run_state, number, lines);
    }
    give_unit(run_state, receiver, number, lines)
}
