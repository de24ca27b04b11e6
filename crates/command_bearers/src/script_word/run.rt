//! A script is read line by line, and each event is applied before the next line is read.

ghost use Rattle.std.specs.Prelude.{◌<◌, ℕ, IfOk, IfSome};
ghost use Rattle.gnb_base.specs.Reading.{still_to_come};
ghost use Rattle.command_defs.specs.Outside.{OutsideAt, outside};
ghost use Rattle.command_bearers.specs.script_word.Ends.{script_status, StopsAtEvent};
ghost use Rattle.command_bearers.specs.script_word.Run.{ScriptMeets};
ghost use Rattle.command_bearers.specs.script_word.Whole.{RunsWholly};
ghost use Rattle.command_bearers.specs.script_word.inside.Stops.{RunsTo, Finishes};
ghost use Rattle.command_bearers.specs.script_word.inside.Turns.{run_at, SoFar, Means, TurnMeets};

use crate::script_word::end::ScriptEnd;
use crate::script_word::word::{Happening, ScriptWord};
use command_defs::CommonEnd;
use commands::command_output::{write_all, write_lines};
use commands::input_lines::next_line;
use gnb_base::lines::{Line, LineReader};
use gnb_base::outside::{Sink, Source};
use scenario_text::read::is_skipped;
use scenario_text::script_words::reason::TextError;
use std::alloc::Global;

/// The event of a line, `None` where it is skipped.
fn event_of_line<W: ScriptWord>(
    alloc: Global,
    word: &W,
    line: &Line,
) -> Result<Option<W::Event>, ScriptEnd>
    ensures { Means (W.meaning word.now) W.in_range line.now result }
{
    let text = line.text.as_slice();
    if is_skipped(text) {
        return Ok(None);
    }
    match word.read_event(alloc, text) {
        Ok(event) => Ok(Some(event)),
        Err(TextError::Refused(reason)) => Err(ScriptEnd::Script {
            place: line.number,
            reason,
        }),
        Err(TextError::Memory) => Err(ScriptEnd::Common(CommonEnd::Memory)),
    }
}

/// Takes the next line, applies its event and writes the event's text. Answers how many events the line was; `None` at the end of
/// the input.
fn take_line<W: ScriptWord, S: Source, K: Sink>(
    alloc: Global,
    word: &W,
    reader: &mut LineReader,
    run: &mut W::Run,
    input: &mut S,
    output: &mut K,
) -> Result<Option<u64>, ScriptEnd>
    ensures meets { (first : OutsideAt) (count : ℕ)
        → SoFar (W.meaning word.now) (W.ran word.now run.old) first
        (run_at reader.old (S.at input.old) (K.at output.old) count)
        → TurnMeets (W.meaning word.now) (W.ran word.now run.new) first
        (run_at reader.new (S.at input.new) (K.at output.new) count) result }
    ensures falls { IfOk result (λ found. IfSome found (λ more. still_to_come reader.new < still_to_come reader.old)) }
{
    let Some(line) = next_line(reader, input)? else {
        return Ok(None);
    };
    let Some(event) = event_of_line(alloc, word, &line)? else {
        return Ok(Some(0));
    };
    let Ok(Happening { text, cause }) = word.apply(alloc, run, &event) else {
        return Err(ScriptEnd::Common(CommonEnd::Memory));
    };
    let Ok(()) = write_all(output, text.as_slice()) else {
        return Err(ScriptEnd::Common(CommonEnd::WriteFault));
    };
    match cause {
        None => Ok(Some(1)),
        Some(cause) => Err(ScriptEnd::Stopped {
            place: line.number,
            cause,
        }),
    }
}

/// Runs the lines of a script. What is written at the end is left to the caller.
fn run_lines<W: ScriptWord, S: Source, K: Sink>(
    alloc: Global,
    word: &W,
    input: &mut S,
    output: &mut K,
) -> ScriptEnd
    requires { W.valid word.now }
    ensures { RunsTo (W.meaning word.now) (outside (S.at input.old) (K.at output.old))
        (outside (S.at input.new) (K.at output.new)) result }
{
    let Ok(mut reader) = LineReader::new(alloc) else {
        return ScriptEnd::Common(CommonEnd::Memory);
    };
    let Ok(mut run) = word.begin(alloc) else {
        return ScriptEnd::Common(CommonEnd::Memory);
    };
    let mut events = 0;
    loop {
        match take_line(alloc, word, &mut reader, &mut run, input, output) {
            Ok(Some(more)) => events += more,
            Ok(None) => return ScriptEnd::Done { events },
            Err(end) => return end,
        }
    }
}

/// Writes what is left to write, and answers how the script ended in the end.
fn finish<K: Sink>(alloc: Global, output: &mut K, end: ScriptEnd) -> ScriptEnd
    ensures { Finishes (K.at output.old) (K.at output.new) end result }
{
    let Some(line) = end.last_line() else {
        return end;
    };
    match write_lines(alloc, output, &[line]) {
        Ok(()) => end,
        Err(error) => ScriptEnd::Common(error),
    }
}

/// Runs a script of this word, and writes what is left to write at its end.
pub fn run_script<W: ScriptWord, S: Source, K: Sink>(
    alloc: Global,
    word: &W,
    input: &mut S,
    output: &mut K,
) -> ScriptEnd
    requires { W.valid word.now }
    ensures meets { ScriptMeets (W.meaning word.now) (outside (S.at input.old) (K.at output.old))
        (outside (S.at input.new) (K.at output.new)) result }

    // At a stop at a line the source was read hardly further than that line.
    ensures near { StopsAtEvent (S.at input.old) (S.at input.new) (script_status result) }

    // A whole script is run, where its bytes are reported and no call fails, unless memory runs
    // out.
    ensures complete { RunsWholly (W.meaning word.now)
        (outside (S.at input.old) (K.at output.old))
        (outside (S.at input.new) (K.at output.new)) (script_status result) }
{
    let end = run_lines(alloc, word, input, output);
    finish(alloc, output, end)
}
