//! A script is read line by line, and each event is applied before the next line is read.

ghost use Rattle.std.specs.Prelude.{◌≡◌, ◌∷◌, None, IfOk};
ghost use Rattle.scenario_text.specs.declared.line.OutLine.TheVariants.{Happens as HappensLine};
ghost use Rattle.scenario_text.specs.Print.{print};
ghost use Rattle.scenario_text.specs.Texts.{InRange};
ghost use Rattle.world.specs.Worlds.{IsUsable};
ghost use Rattle.command_defs.specs.Outside.{outside};
ghost use Rattle.command_run.specs.inside.Stops.{RunsTo};
ghost use Rattle.command_run.specs.Run.{setting_of};
ghost use Rattle.command_run.specs.inside.Turns.{run_at, work_at, world_at, ProfileMeets, Means, IsHappening, ApplyMeets, TurnMeets};
ghost use Rattle.gnb_base.specs.Reading.{fresh};

use crate::end::{RunEnd, end_at};
use command_defs::CommonEnd;
use commands::command_output::{text_of, write_all};
use commands::input_lines::next_line;
use commands::input_module::{GivenModule, take_module};
use gnb_base::lines::{Line, LineReader};
use gnb_base::outside::{Sink, Source};
use gnb_types::octets::{Memory, Octets};
use profile::Version;
use profile::profile_module::{AgreeError, agrees};
use run_links::lines::Lines;
use scenario_text::event::{Event, TextReason};
use scenario_text::line::OutLine;
use scenario_text::read::{TextError, is_skipped, read_event};
use std::alloc::Global;
use unit_messages::lawful_codecs::LawfulCodec;
use world::stop::Stop;
use world::world::World;
use world_steps::Units;
use world_steps::cause::Cause;

/// Takes the header, and the module that it names, which is to be the profile, version 1. The codec
/// is of that profile already, so that it is read here only where another module is compared with it.
fn take_profile<S: Source>(
    alloc: Global,
    reader: &mut LineReader,
    input: &mut S,
) -> Result<(), RunEnd>
    requires { reader.old ≡ fresh }
    ensures { ProfileMeets (S.at input.old) (S.at input.new) reader.new result }
{
    match take_module(alloc, Version::One, reader, input)? {
        GivenModule::Builtin(_) => Ok(()),
        GivenModule::Text(module) => match agrees(alloc, module) {
            Ok(_) => Ok(()),
            Err(AgreeError::Differs { name }) => Err(RunEnd::Differs { name }),
            Err(AgreeError::Memory) => Err(RunEnd::Common(CommonEnd::Memory)),
        },
    }
}

/// What a line of a script is.
enum Meaning {
    Skipped,
    Event(Event),
}

/// Reads a line after the module.
fn meaning_of(alloc: Global, line: &Line) -> Result<Meaning, RunEnd>
    ensures { Means line.now result }
{
    let text = line.text.as_slice();
    if is_skipped(text) {
        return Ok(Meaning::Skipped);
    }
    match read_event(alloc, text) {
        Ok(event) => Ok(Meaning::Event(event)),
        Err(TextError::Refused(reason)) => Err(RunEnd::Script {
            place: line.number,
            reason,
        }),
        Err(TextError::Memory) => Err(RunEnd::Common(CommonEnd::Memory)),
    }
}

/// What an event came to: the lines that it prints, and why the run stops in it, if it does.
struct Happening {
    lines: Lines,
    cause: Option<Cause>,
}

/// Applies an event to a run that goes on.
fn happen<U: Units<C> + Drop, C: LawfulCodec + Drop>(
    world: &mut World<U, C>,
    event: &Event,
) -> Result<Happening, Memory>
    requires range { InRange event.now }
    requires going { world.old.stop ≡ None }
    requires ready { U.ready world.old.run_state.units }
    ensures ready { IsUsable U.ready world.new.run_state.units world.new.stop }
    ensures happens { IfOk result (IsHappening (setting_of C.codec U.answer) event.now
        (world_at (U.records world.old.run_state.units) world.old.run_state.core
        world.old.run_state.network world.old.stop)
        (world_at (U.records world.new.run_state.units) world.new.run_state.core
        world.new.run_state.network world.new.stop)) }
{
    match world.apply(event) {
        Ok(lines) => Ok(Happening { lines, cause: None }),
        Err(Stop::Outstanding { outstanding, lines }) => {
            let cause = Some(Cause::Outstanding(outstanding));
            Ok(Happening { lines, cause })
        }
        Err(Stop::Spent { counter, lines }) => {
            let cause = Some(Cause::Spent(counter));
            Ok(Happening { lines, cause })
        }
        Err(Stop::Memory) => Err(Memory::told()),
    }
}

/// The text of an event's own line and of its lines.
fn event_text(alloc: Global, event: Event, lines: &[OutLine]) -> Result<Octets, Memory>
    ensures { IfOk result (λ text. text ≡ print (HappensLine event ∷ lines.now)) }
{
    let own = [OutLine::Happens { event }];
    let text = text_of(alloc, &own);
    drop(own);
    let mut text = text?;
    text.append(text_of(alloc, lines)?.as_slice())?;
    Ok(text)
}

/// Applies the event of the line at this place, and writes all its lines.
fn apply_event<K: Sink, U: Units<C> + Drop, C: LawfulCodec + Drop>(
    alloc: Global,
    world: &mut World<U, C>,
    place: u64,
    event: Event,
    output: &mut K,
) -> Result<(), RunEnd>
    requires range { InRange event }
    requires going { world.old.stop ≡ None }
    requires ready { U.ready world.old.run_state.units }
    ensures ready { IsUsable U.ready world.new.run_state.units world.new.stop }
    ensures meets { ApplyMeets (setting_of C.codec U.answer)
        (work_at (world_at (U.records world.old.run_state.units) world.old.run_state.core
        world.old.run_state.network world.old.stop) (K.at output.old))
        (work_at (world_at (U.records world.new.run_state.units) world.new.run_state.core
        world.new.run_state.network world.new.stop) (K.at output.new))
        (place, event) result }
{
    let Ok(Happening { lines, cause }) = happen(world, &event) else {
        return Err(RunEnd::Common(CommonEnd::Memory));
    };
    let text = event_text(alloc, event, lines.as_slice());
    drop(lines);
    let Ok(text) = text else {
        return Err(RunEnd::Common(CommonEnd::Memory));
    };
    let Ok(()) = write_all(output, text.as_slice()) else {
        return Err(RunEnd::Common(CommonEnd::WriteFault));
    };
    match cause {
        None => Ok(()),
        Some(cause) => Err(end_at(place, cause)),
    }
}

/// Takes the next line, and answers how many events it was; `None` at the end of the input.
fn apply_line<S: Source, K: Sink, U: Units<C> + Drop, C: LawfulCodec + Drop>(
    alloc: Global,
    reader: &mut LineReader,
    world: &mut World<U, C>,
    input: &mut S,
    output: &mut K,
) -> Result<Option<u64>, RunEnd>
    requires going { world.old.stop ≡ None }
    requires ready { U.ready world.old.run_state.units }
    ensures ready { IsUsable U.ready world.new.run_state.units world.new.stop }
    ensures meets { TurnMeets (setting_of C.codec U.answer)
        (run_at reader.old (S.at input.old) (world_at (U.records world.old.run_state.units)
        world.old.run_state.core world.old.run_state.network world.old.stop) (K.at output.old))
        (run_at reader.new (S.at input.new) (world_at (U.records world.new.run_state.units)
        world.new.run_state.core world.new.run_state.network world.new.stop) (K.at output.new)) result }
{
    let Some(line) = next_line(reader, input)? else {
        return Ok(None);
    };
    match meaning_of(alloc, &line)? {
        Meaning::Skipped => Ok(Some(0)),
        Meaning::Event(event) => {
            apply_event(alloc, world, line.number, event, output)?;
            Ok(Some(1))
        }
    }
}

/// Runs a script: its header with the module, and then its events. What is written at the end is left
/// to the caller.
pub fn run<S: Source, K: Sink, U: Units<C> + Drop, C: LawfulCodec + Drop>(
    alloc: Global,
    codec: C,
    units: U,
    input: &mut S,
    output: &mut K,
) -> RunEnd
    ensures { RunsTo (setting_of C.codec U.answer) (outside (S.at input.old) (K.at output.old))
        (outside (S.at input.new) (K.at output.new)) result }
{
    let Ok(mut reader) = LineReader::new(alloc) else {
        return RunEnd::Common(CommonEnd::Memory);
    };
    if let Err(end) = take_profile(alloc, &mut reader, input) {
        return end;
    }
    let Ok(mut world) = World::new(alloc, codec, units) else {
        return RunEnd::Common(CommonEnd::Memory);
    };
    let mut events = 0;
    loop {
        match apply_line(alloc, &mut reader, &mut world, input, output) {
            Ok(Some(more)) => events += more,
            Ok(None) => return RunEnd::Done { events },
            Err(end) => return end,
        }
    }
}
