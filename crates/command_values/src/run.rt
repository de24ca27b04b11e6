//! The words `encode` and `decode`.

ghost use Rattle.std.specs.Prelude.{◌≡◌, ◌++◌, ◌∷◌, [], IfOk};
ghost use Rattle.profile.specs.profile_module.Profiles.{IsBuiltin};
ghost use Rattle.scenario_text.specs.Print.{print};
ghost use Rattle.command_defs.specs.Outside.{outside};
ghost use Rattle.command_values.specs.Ends.{values_status, values_report, StopsAtValue};
ghost use Rattle.command_values.specs.Values.{job_of, ValuesMeet};
ghost use Rattle.command_values.specs.Whole.{AnswersWholly};
ghost use Rattle.command_values.specs.inside.Stops.{RunsTo, Finishes};
ghost use Rattle.command_values.specs.inside.Turns.{run_at, ContinuesModule, ContinuesGiven};

use crate::end::{Stop, ValuesEnd};
use crate::lines::{Task, answer_lines};
use crate::way::Way;
use asn1_module::Module;
use command_defs::CommonEnd;
use commands::command_output::{text_of, write_all};
use commands::input_module::{GivenModule, take_module};
use gnb_base::lines::LineReader;
use gnb_base::outside::{Sink, Source};
use gnb_types::octets::{Memory, Octets};
use profile::Version;
use profile::profile_module::{Profile, builtin, builtin_2};
use scenario_text::line::OutLine;
use std::alloc::Global;

/// The word, and the name of the type after it.
#[derive(Clone, Copy)]
struct Words<'a> {
    way: Way,
    name: &'a [u8],
}

/// Answers the lines after a module.
fn with_module<S: Source, K: Sink>(
    alloc: Global,
    words: Words<'_>,
    module: &Module,
    reader: &mut LineReader,
    input: &mut S,
    output: &mut K,
) -> ValuesEnd
    ensures { ContinuesModule (job_of words.entry.way words.entry.name.now) module.now
        (run_at reader.old (S.at input.old) (K.at output.old))
        (run_at reader.new (S.at input.new) (K.at output.new)) result }
{
    let Some(id) = module.find(words.name) else {
        return ValuesEnd::Stopped(Stop::NoType);
    };
    let task = Task {
        way: words.way,
        module,
        id,
    };
    answer_lines(alloc, task, reader, input, output)
}

/// The profile in a version.
fn profile_of(alloc: Global, version: Version) -> Result<Profile, Memory>
    ensures { IfOk result (λ profile. IsBuiltin version profile) }
{
    match version {
        Version::One => builtin(alloc),
        Version::Two => builtin_2(alloc),
    }
}

/// The same of the module that a header names; the profile is read of its text.
fn with_given<S: Source, K: Sink>(
    alloc: Global,
    words: Words<'_>,
    given: &GivenModule,
    reader: &mut LineReader,
    input: &mut S,
    output: &mut K,
) -> ValuesEnd
    ensures { ContinuesGiven (job_of words.entry.way words.entry.name.now) given.now
        (run_at reader.old (S.at input.old) (K.at output.old))
        (run_at reader.new (S.at input.new) (K.at output.new)) result }
{
    match given {
        GivenModule::Text(module) => with_module(alloc, words, module, reader, input, output),
        GivenModule::Builtin(version) => match profile_of(alloc, *version) {
            Ok(profile) => with_module(alloc, words, profile.module(), reader, input, output),
            Err(_) => ValuesEnd::Common(CommonEnd::Memory),
        },
    }
}

/// Takes the module and answers the lines after it. What is written then is left to the caller.
fn run<S: Source, K: Sink>(
    alloc: Global,
    words: Words<'_>,
    input: &mut S,
    output: &mut K,
) -> ValuesEnd
    ensures { RunsTo (job_of words.entry.way words.entry.name.now)
        (outside (S.at input.old) (K.at output.old))
        (outside (S.at input.new) (K.at output.new)) result }
{
    let Ok(mut reader) = LineReader::new(alloc) else {
        return ValuesEnd::Common(CommonEnd::Memory);
    };
    match take_module(alloc, Version::Two, &mut reader, input) {
        Ok(given) => with_given(alloc, words, &given, &mut reader, input, output),
        Err(stop) => ValuesEnd::from(stop),
    }
}

/// All that is written at this end, whose last line this is.
fn text_at(alloc: Global, end: &ValuesEnd, line: OutLine) -> Result<Octets, Memory>
    ensures { IfOk result (λ text. text ≡ values_report end.now ++ print (line ∷ [])) }
{
    let lines = [line];
    let last = text_of(alloc, &lines);
    drop(lines);
    let mut text = end.report(alloc)?;
    text.append(last?.as_slice())?;
    Ok(text)
}

/// Writes what is left to write, and answers how the word ended in the end.
fn finish<K: Sink>(alloc: Global, output: &mut K, end: ValuesEnd) -> ValuesEnd
    ensures { Finishes (K.at output.old) (K.at output.new) end result }
{
    let Some(line) = end.last_line() else {
        return end;
    };
    let Ok(text) = text_at(alloc, &end, line) else {
        return ValuesEnd::Common(CommonEnd::Memory);
    };
    match write_all(output, text.as_slice()) {
        Ok(()) => end,
        Err(_) => ValuesEnd::Common(CommonEnd::WriteFault),
    }
}

/// Answers each line after a module as a value of the type of this name, and writes what is left to write at the end.
pub fn run_values<S: Source, K: Sink>(
    alloc: Global,
    way: Way,
    name: &[u8],
    input: &mut S,
    output: &mut K,
) -> ValuesEnd
    ensures meets { ValuesMeet (job_of way name.now) (outside (S.at input.old) (K.at output.old))
        (outside (S.at input.new) (K.at output.new)) result }

    // At a stop at a line the source was read hardly further than that line.
    ensures near { StopsAtValue (S.at input.old) (S.at input.new) (values_status result) }

    // Each line of a whole input is answered, where its bytes are reported and no call fails, unless
    // memory runs out.
    ensures complete { AnswersWholly (job_of way name.now)
        (outside (S.at input.old) (K.at output.old))
        (outside (S.at input.new) (K.at output.new)) (values_status result) }
{
    let end = run(alloc, Words { way, name }, input, output);
    finish(alloc, output, end)
}
