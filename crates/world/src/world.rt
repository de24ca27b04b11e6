//! The run.

ghost use Rattle.std.specs.Prelude.{◌≡◌, IfOk};
ghost use Rattle.scenario_text.specs.Texts.{InRange};
ghost use Rattle.run_defs.specs.States.{new_state};
ghost use Rattle.run_defs.specs.UnitRuns.{unit_world};
ghost use Rattle.run_links.specs.Networks.{state_of};
ghost use Rattle.world.specs.Worlds.{IsUsable, IsNew, Applies};

use crate::happen::happen;
use crate::stop::Stop;
use core_node::CoreNode;
use gnb_types::items::Memory;
use run_links::lines::Lines;
use run_links::network::Network;
use scenario_text::event::Event;
use std::alloc::Global;
use unit_messages::lawful_codecs::LawfulCodec;
use world_steps::Units;
use world_steps::cause::Cause;
use world_steps::run_state::RunState;

/// A run of the whole base station over these units, whose control messages are octets by this codec. Contracts see the state of the run,
/// as the run of units of any meaning has it, and why it stopped, if it did.
#[derive(Drop)]
pub struct World<U: Units<C>, C: LawfulCodec> {
    pub run_state: RunState<U, C>,
    /// From then on each event is answered alike.
    pub stop: Option<Cause>,
}

impl<U: Units<C> + Drop, C: LawfulCodec + Drop> World<U, C> {
    /// A run in which nothing happened yet: the units begin.
    pub fn new(alloc: Global, codec: C, units: U) -> Result<World<U, C>, Memory>
        ensures ready { IfOk result (λ w. IsUsable U.ready w.run_state.units w.stop) }
        ensures state { IfOk result (λ w. IsNew
            (state_of (U.records w.run_state.units) w.run_state.core w.run_state.network) w.stop) }
    {
        let core = CoreNode::new(alloc);
        let network = Network::new(alloc)?;
        let mut units = units;
        units.begin(alloc)?;
        let run_state = RunState {
            alloc,
            codec,
            units,
            core,
            network,
        };
        Ok(World {
            run_state,
            stop: None,
        })
    }

    /// Applies an event: the lines of its steps, in order; or how the run stops in it. After that, and out of memory, each event is
    /// answered alike, without lines.
    pub fn apply(&mut self, event: &Event) -> Result<Lines, Stop>
        requires ready { IsUsable U.ready self.old.run_state.units self.old.stop }
        requires range { InRange event.now }
        ensures ready { IsUsable U.ready self.new.run_state.units self.new.stop }
        ensures applies { Applies (unit_world C.codec U.answer) event.now
            (record { state = state_of (U.records self.old.run_state.units) self.old.run_state.core self.old.run_state.network; stop = self.old.stop })
            (record { state = state_of (U.records self.new.run_state.units) self.new.run_state.core self.new.run_state.network; stop = self.new.stop }) result }
    {
        let mut lines = Lines::new(self.run_state.alloc);
        if let Some(cause) = self.stop {
            return Err(Stop::of(cause, lines));
        }
        match happen(&mut self.run_state, event, &mut lines) {
            Ok(()) => Ok(lines),
            Err(cause) => {
                self.stop = Some(cause);
                Err(Stop::of(cause, lines))
            }
        }
    }
}
