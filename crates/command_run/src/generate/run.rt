//! The run of the generated script.

ghost use Rattle.std.specs.Prelude.{◌≡◌, ◌≤◌, ◌<◌, ◌+◌, ◌*◌, ◌^◌, ◌∷◌, [], map, length, None, OnOk, IfOk};
ghost use Rattle.scenario_text.specs.Texts.{InRange};
ghost use Rattle.run_defs.specs.UnitRuns.{unit_world, UnitRun};
ghost use Rattle.run_links.specs.Networks.{state_of};
ghost use Rattle.command_run.specs.generate.Script.{script, turn_events, turns_from};
ghost use Rattle.command_run.specs.generate.Ends.{EndMeets};
ghost use Rattle.command_run.specs.generate.inside.Moments.{event_at};
ghost use Rattle.command_run.specs.generate.inside.Passing.{run_at, Follows, cause_in, IsEndBy};

use crate::generate::end::GenerateEnd;
use crate::generate::script::{BEARER, Moment, PACKET, PLAN, Place, RETURN, UE};
use gnb_types::items::Memory;
use scenario_text::event::Event;
use std::alloc::Global;
use unit_messages::lawful_codecs::LawfulCodec;
use world::stop::Stop;
use world::world::World;
use world_steps::Units;
use world_steps::cause::Cause;

/// How many packets there are from one return to the next.
const PACKETS_TO_A_RETURN: u32 = 100;

/// Why a run stopped; the lines of its last event are let go.
fn cause_in(stop: Stop) -> Cause
    ensures { result ≡ cause_in stop }
{
    match stop {
        Stop::Outstanding { outstanding, lines } => {
            drop(lines);
            Cause::Outstanding(outstanding)
        }
        Stop::Spent { counter, lines } => {
            drop(lines);
            Cause::Spent(counter)
        }
        Stop::Memory => Cause::Memory,
    }
}

/// A run of the generated script.
#[derive(Drop)]
struct GeneratedRun<U: Units<C>, C: LawfulCodec> {
    alloc: Global,
    world: World<U, C>,
    /// The line of the event that was applied last, in a script whose header is its first line.
    line: u64,
}

impl<U: Units<C> + Drop, C: LawfulCodec + Drop> GeneratedRun<U, C> {
    /// Applies the next event. Its lines are let go.
    fn apply(&mut self, event: Event) -> Result<(), Cause>
        requires range { InRange event }
        requires room { self.old.line < 2 ^ 32 }
        requires going { self.old.world.stop ≡ None }
        requires ready { U.ready self.old.world.run_state.units }
        ensures ready { OnOk result (U.ready self.new.world.run_state.units) }
        ensures follows { Follows (unit_world C.codec U.answer) (event ∷ [])
            (run_at (record { state = state_of (U.records self.old.world.run_state.units) self.old.world.run_state.core self.old.world.run_state.network; stop = self.old.world.stop }) self.old.line)
            (run_at (record { state = state_of (U.records self.new.world.run_state.units) self.new.world.run_state.core self.new.world.run_state.network; stop = self.new.world.stop }) self.new.line) result }
    {
        self.line += 1;
        let answer = self.world.apply(&event);
        drop(event);
        match answer {
            Ok(lines) => {
                drop(lines);
                Ok(())
            }
            Err(stop) => Err(cause_in(stop)),
        }
    }

    /// Applies the event of a moment.
    fn pass(&mut self, moment: Moment, place: Place) -> Result<(), Cause>
        requires few { place.returns ≤ 1000 }
        requires room { self.old.line < 2 ^ 32 }
        requires going { self.old.world.stop ≡ None }
        requires ready { U.ready self.old.world.run_state.units }
        ensures ready { OnOk result (U.ready self.new.world.run_state.units) }
        ensures follows { Follows (unit_world C.codec U.answer) (event_at place moment ∷ [])
            (run_at (record { state = state_of (U.records self.old.world.run_state.units) self.old.world.run_state.core self.old.world.run_state.network; stop = self.old.world.stop }) self.old.line)
            (run_at (record { state = state_of (U.records self.new.world.run_state.units) self.new.world.run_state.core self.new.world.run_state.network; stop = self.new.world.stop }) self.new.line) result }
    {
        match moment.event(self.alloc, place) {
            Ok(event) => self.apply(event),
            Err(_) => Err(Cause::Memory),
        }
    }

    /// Applies the events of these moments, in order.
    fn pass_all(&mut self, moments: &[Moment], place: Place) -> Result<(), Cause>
        requires few { place.returns ≤ 1000 }
        requires short { length moments.now ≤ 9 }
        requires room { self.old.line < 2 ^ 31 }
        requires going { self.old.world.stop ≡ None }
        requires ready { U.ready self.old.world.run_state.units }
        ensures ready { OnOk result (U.ready self.new.world.run_state.units) }
        ensures follows { Follows (unit_world C.codec U.answer) (map (event_at place) moments.now)
            (run_at (record { state = state_of (U.records self.old.world.run_state.units) self.old.world.run_state.core self.old.world.run_state.network; stop = self.old.world.stop }) self.old.line)
            (run_at (record { state = state_of (U.records self.new.world.run_state.units) self.new.world.run_state.core self.new.world.run_state.network; stop = self.new.world.stop }) self.new.line) result }
    {
        for moment in moments {
            match self.pass(*moment, place) {
                Ok(()) => {}
                Err(cause) => return Err(cause),
            }
        }
        Ok(())
    }

    /// A packet has its turn; after every hundredth the terminal loses its radio and comes back.
    fn turn(&mut self, packet: u32) -> Result<(), Cause>
        requires below { packet < 100000 }
        requires room { self.old.line ≤ 2 + 15 * packet }
        requires going { self.old.world.stop ≡ None }
        requires ready { U.ready self.old.world.run_state.units }
        ensures ready { OnOk result (U.ready self.new.world.run_state.units) }
        ensures room { OnOk result (self.new.line ≤ 2 + 15 * (packet + 1)) }
        ensures follows { Follows (unit_world C.codec U.answer) (turn_events packet)
            (run_at (record { state = state_of (U.records self.old.world.run_state.units) self.old.world.run_state.core self.old.world.run_state.network; stop = self.old.world.stop }) self.old.line)
            (run_at (record { state = state_of (U.records self.new.world.run_state.units) self.new.world.run_state.core self.new.world.run_state.network; stop = self.new.world.stop }) self.new.line) result }
    {
        let returns = packet / PACKETS_TO_A_RETURN;
        match self.pass_all(&PACKET, Place { packet, returns }) {
            Ok(()) => {}
            Err(cause) => return Err(cause),
        }
        if (packet + 1) % PACKETS_TO_A_RETURN != 0 {
            return Ok(());
        }
        let returns = returns + 1;
        self.pass_all(&RETURN, Place { packet, returns })
    }

    /// The turns of these many packets, and a question at their end.
    fn turns(&mut self, packets: u32) -> Result<(), Cause>
        requires most { packets ≤ 100000 }
        requires first { self.old.line ≡ 2 }
        requires going { self.old.world.stop ≡ None }
        requires ready { U.ready self.old.world.run_state.units }
        ensures { Follows (unit_world C.codec U.answer) (turns_from 0 packets)
            (run_at (record { state = state_of (U.records self.old.world.run_state.units) self.old.world.run_state.core self.old.world.run_state.network; stop = self.old.world.stop }) self.old.line)
            (run_at (record { state = state_of (U.records self.new.world.run_state.units) self.new.world.run_state.core self.new.world.run_state.network; stop = self.new.world.stop }) self.new.line) result }
    {
        for packet in 0..packets {
            match self.turn(packet) {
                Ok(()) => {}
                Err(cause) => return Err(cause),
            }
        }
        let (ue, bearer) = (UE, BEARER);
        self.apply(Event::Ask { ue, bearer })
    }

    /// The whole script.
    fn pass_script(&mut self, packets: u32) -> Result<(), Cause>
        requires most { packets ≤ 100000 }
        requires first { self.old.line ≡ 1 }
        requires going { self.old.world.stop ≡ None }
        requires ready { U.ready self.old.world.run_state.units }
        ensures { Follows (unit_world C.codec U.answer) (script packets)
            (run_at (record { state = state_of (U.records self.old.world.run_state.units) self.old.world.run_state.core self.old.world.run_state.network; stop = self.old.world.stop }) self.old.line)
            (run_at (record { state = state_of (U.records self.new.world.run_state.units) self.new.world.run_state.core self.new.world.run_state.network; stop = self.new.world.stop }) self.new.line) result }
    {
        match self.apply(Event::Static { plan: PLAN }) {
            Ok(()) => self.turns(packets),
            Err(cause) => Err(cause),
        }
    }
}

/// How a run ended that came to this in the event at this line.
fn end_at(passed: Result<(), Cause>, packets: u32, place: u64) -> Result<GenerateEnd, Memory>
    ensures { IfOk result (λ end. IsEndBy passed packets place end) }
{
    match passed {
        Ok(()) => Ok(GenerateEnd::Done { packets }),
        Err(Cause::Outstanding(outstanding)) => Ok(GenerateEnd::Outstanding { place, outstanding }),
        Err(Cause::Spent(counter)) => Ok(GenerateEnd::Spent { place, counter }),
        Err(Cause::Memory) => Err(Memory::told()),
    }
}

/// Runs the script of so many packets over these units.
pub(crate) fn run<U: Units<C> + Drop, C: LawfulCodec + Drop>(
    alloc: Global,
    codec: C,
    units: U,
    packets: u32,
) -> Result<GenerateEnd, Memory>
    requires { packets ≤ 100000 }
    ensures { IfOk result (λ end. EndMeets (UnitRun C.codec U.answer (script packets)) packets end) }
{
    let world = World::new(alloc, codec, units)?;
    let mut run = GeneratedRun {
        alloc,
        world,
        line: 1,
    };
    let passed = run.pass_script(packets);
    let line = run.line;
    drop(run);
    end_at(passed, packets, line)
}
