//! A unit is asked, and its answer is carried out.

ghost use Rattle.std.specs.Prelude.{◌≡◌, false, nat_lt, ◌+◌, List, length, map, None, OnOk};
ghost use Rattle.transport_defs.specs.Links.{most_control_messages};
ghost use Rattle.run_defs.specs.plain_defs.Plain.{IsGiven};
ghost use Rattle.run_units.specs.Steps.{IsThere};
ghost use Rattle.run_defs.specs.States.{goes_on};
ghost use Rattle.run_defs.specs.Steps.{reconnect_node, check_spans, does, step};
ghost use Rattle.scenario_text.specs.declared.line.OutLine.{OutLine as ShownLine};
ghost use Rattle.run_defs.specs.UnitRuns.{OctetGiven, unit_world, input_of, stepped_by, put_of};
ghost use Rattle.run_links.specs.Networks.{state_of, control_messages_in};
ghost use Rattle.run_links.specs.Told.{GoesTo};
ghost use Rattle.world_steps.specs.Gives.{Gives, EventGives, finished};
ghost use Rattle.world_steps.specs.Moves.{StepOutcome};
ghost use Rattle.world_steps.specs.Asks.{ComesOf, SortsTo};

use crate::asked::{Alone, Asked, Moved, alone_in, moved_by};
use crate::cause::{Cause, cause_of};
use crate::run_state::RunState;
use gnb_types::inputs::Input;
use gnb_types::items::Memory;
use gnb_types::names::{NodeId, UeId};
use gnb_types::outputs::Outputs;
use run_links::lines::Lines;
use run_units::units::Units;
use unit_messages::MessageCodec;

/// What comes of these outputs, where there is room for their control messages.
fn sorted(outputs: Outputs, room: bool) -> Result<Asked, Cause>
    ensures { SortsTo outputs room result }
{
    match alone_in(&outputs) {
        Alone::Holds(reason) => Ok(Asked::Holds(reason)),
        Alone::Refuses(reason) => Ok(Asked::Refuses(reason)),
        Alone::Neither if room => Ok(Asked::Does(outputs)),
        // The first counter is that of control messages.
        Alone::Neither => Err(Cause::Spent(1)),
    }
}

impl<U: Units<C> + Drop, C: MessageCodec + Drop> RunState<U, C> {
    /// Asks a unit. What it answers isn't carried out yet.
    pub fn ask(&mut self, node: NodeId, input: Input) -> Result<Asked, Cause>
        requires ready { U.ready self.old.units }
        requires given { IsGiven input }
        requires there { IsThere (U.records self.old.units) node input }
        ensures ready { OnOk result (U.ready self.new.units) }
        ensures came { ComesOf (record {
          world = unit_world C.codec U.answer;
          state = state_of (U.records self.old.units) self.old.core self.old.network;
          node = node;
          stepped = stepped_by (U.answer (U.records self.old.units) node input);
        }) (U.records self.new.units) result }
        ensures core { self.new.core ≡ self.old.core }
        ensures network { self.new.network ≡ self.old.network }
    {
        match self.units.step(self.alloc, &self.codec, node, input) {
            Ok(outputs) => {
                let room = !self.network.too_many_control_messages(&outputs);
                sorted(outputs, room)
            }
            Err(error) => Err(cause_of(error)),
        }
    }

    /// The end of a step, once it has taken what it takes: the radios follow the terminal, the outputs are put, and spans are looked at.
    pub fn finish(
        &mut self,
        node: NodeId,
        taken: Option<u32>,
        outputs: Outputs,
        lines: &mut Lines,
    ) -> Result<(), Cause>
        requires ready { U.ready self.old.units }
        requires room { nat_lt most_control_messages (length self.old.network.bag.control_messages + control_messages_in outputs) ≡ false }
        ensures ready { U.ready self.new.units }
        ensures gives { Gives lines.old
            (finished (unit_world C.codec U.answer) node taken (map put_of outputs)
            (state_of (U.records self.old.units) self.old.core self.old.network))
            lines.new (state_of (U.records self.new.units) self.new.core self.new.network) result }
    {
        self.follow(node, lines)?;
        self.network.put_out_all(node, taken, outputs, lines)?;
        self.look_at_spans()
    }

    /// The radios of a terminal follow it.
    fn follow(&mut self, node: NodeId, lines: &mut Lines) -> Result<(), Memory>
        requires { U.ready self.old.units }
        ensures goes { OnOk result (GoesTo lines.old
            (reconnect_node (unit_world C.codec U.answer) node
            (state_of (U.records self.old.units) self.old.core self.old.network))
            lines.new (state_of (U.records self.old.units) self.old.core self.new.network)) }
        ensures bag { OnOk result (self.new.network.bag ≡ self.old.network.bag) }
        ensures units { self.new.units ≡ self.old.units }
        ensures core { self.new.core ≡ self.old.core }
    {
        let NodeId::Ue(ue) = node else {
            return Ok(());
        };
        let now = self.epoch_now(UeId(ue));
        self.network.reconnect(UeId(ue), now, lines)
    }

    /// The first bearer that is outstanding stops the run.
    pub fn look_at_spans(&self) -> Result<(), Cause>
        ensures { (lines : List ShownLine) → Gives lines
            (check_spans (state_of (U.records self.now.units) self.now.core self.now.network))
            lines (state_of (U.records self.now.units) self.now.core self.now.network) result }
    {
        match self.network.outstanding() {
            Some(outstanding) => Err(Cause::Outstanding(outstanding)),
            None => Ok(()),
        }
    }

    /// A step that takes nothing before its outputs are put. What wasn't made isn't printed.
    pub fn try_step(
        &mut self,
        node: NodeId,
        input: Input,
        lines: &mut Lines,
    ) -> Result<Moved, Cause>
        requires ready { U.ready self.old.units }
        requires given { IsGiven input }
        requires there { IsThere (U.records self.old.units) node input }
        ensures ready { OnOk result (U.ready self.new.units) }
        ensures gives { (given : OctetGiven) → input_of given ≡ input → StepOutcome
            (does (unit_world C.codec U.answer) node given None goes_on (state_of (U.records self.old.units) self.old.core self.old.network))
            (record { state = state_of (U.records self.old.units) self.old.core self.old.network; lines = lines.old })
            (record { state = state_of (U.records self.new.units) self.new.core self.new.network; lines = lines.new }) result }
    {
        let asked = match self.ask(node, input) {
            Ok(asked) => asked,
            Err(cause) => return Err(cause),
        };
        match asked {
            Asked::Does(outputs) => moved_by(self.finish(node, None, outputs, lines)),
            Asked::Holds(reason) => Ok(Moved::Holds(reason)),
            Asked::Refuses(reason) => Ok(Moved::Refuses(reason)),
        }
    }

    /// The same of an event: it prints that it was refused.
    pub fn step(&mut self, node: NodeId, input: Input, lines: &mut Lines) -> Result<(), Cause>
        requires ready { U.ready self.old.units }
        requires given { IsGiven input }
        requires there { IsThere (U.records self.old.units) node input }
        ensures ready { OnOk result (U.ready self.new.units) }
        ensures gives { (given : OctetGiven) → input_of given ≡ input → EventGives lines.old
            (step (unit_world C.codec U.answer) node given (state_of (U.records self.old.units) self.old.core self.old.network))
            lines.new (state_of (U.records self.new.units) self.new.core self.new.network) result }
    {
        let moved = match self.try_step(node, input, lines) {
            Ok(moved) => moved,
            Err(cause) => return Err(cause),
        };
        moved.show_refused(lines)?;
        Ok(())
    }
}
