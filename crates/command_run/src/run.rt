//! The word `run`.

ghost use Rattle.std.specs.Prelude.{◌≡◌, ◌++◌, ◌∷◌, [], IfOk};
ghost use Rattle.scenario_text.specs.Print.{print};
ghost use Rattle.command_defs.specs.Outside.{outside};
ghost use Rattle.command_run.specs.Ends.{run_status, report_of, StopsAtEvent};
ghost use Rattle.command_run.specs.Run.{setting_of, RunMeets};
ghost use Rattle.command_run.specs.Whole.{RunsWholly};
ghost use Rattle.command_run.specs.inside.Stops.{Finishes};

use crate::end::RunEnd;
use crate::script;
use command_defs::CommonEnd;
use commands::command_output::{text_of, write_all};
use gnb_base::outside::{Sink, Source};
use gnb_types::octets::{Memory, Octets};
use scenario_text::line::OutLine;
use std::alloc::Global;
use unit_messages::lawful_codecs::LawfulCodec;
use world_steps::Units;

/// All that is written at this end, whose last line this is.
fn text_at(alloc: Global, end: &RunEnd, line: OutLine) -> Result<Octets, Memory>
    ensures { IfOk result (λ text. text ≡ report_of end.now ++ print (line ∷ [])) }
{
    let lines = [line];
    let last = text_of(alloc, &lines);
    drop(lines);
    let mut text = end.report(alloc)?;
    text.append(last?.as_slice())?;
    Ok(text)
}

/// Writes what is left to write, and answers how the run ended in the end.
fn finish<K: Sink>(alloc: Global, output: &mut K, end: RunEnd) -> RunEnd
    ensures { Finishes (K.at output.old) (K.at output.new) end result }
{
    let Some(line) = end.last_line() else {
        return end;
    };
    let Ok(text) = text_at(alloc, &end, line) else {
        return RunEnd::Common(CommonEnd::Memory);
    };
    match write_all(output, text.as_slice()) {
        Ok(()) => end,
        Err(_) => RunEnd::Common(CommonEnd::WriteFault),
    }
}

/// Runs a script over these units, and writes what is left to write at its end.
pub fn run_script<S: Source, K: Sink, U: Units<C> + Drop, C: LawfulCodec + Drop>(
    alloc: Global,
    codec: C,
    units: U,
    input: &mut S,
    output: &mut K,
) -> RunEnd
    ensures meets { RunMeets (setting_of C.codec U.answer)
        (outside (S.at input.old) (K.at output.old))
        (outside (S.at input.new) (K.at output.new)) result }

    // At a stop at a line the source was read hardly further than that line.
    ensures near { StopsAtEvent (S.at input.old) (S.at input.new) (run_status result) }

    // A whole script is run, where its bytes are reported and no call fails, unless memory runs
    // out.
    ensures complete { RunsWholly (setting_of C.codec U.answer)
        (outside (S.at input.old) (K.at output.old))
        (outside (S.at input.new) (K.at output.new)) (run_status result) }
{
    let end = script::run(alloc, codec, units, input, output);
    finish(alloc, output, end)
}
