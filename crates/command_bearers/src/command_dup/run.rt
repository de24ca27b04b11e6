//! The word `duplicate`, over the run of a bearer with duplication.

ghost use Rattle.std.specs.Prelude.{◌≡◌, ◌≤◌, ◌++◌, IfOk};
ghost use Rattle.command_defs.specs.Outside.{outside};
ghost use Rattle.dup.specs.text.Print.{print, happens_text};
ghost use Rattle.command_bearers.specs.script_word.Ends.{script_status, StopsAtEvent};
ghost use Rattle.command_bearers.specs.command_dup.Run.{DupMeets, RunsDup};

use crate::command_dup::config::DupConfig;
use crate::script_word::{Happening, ScriptEnd, ScriptWord, StopCause, run_script};
use dup::run::run::Dup;
use dup::text::print::print_happening;
use dup::text::read;
use dup_defs::types::event::DupEvent;
use dup_defs::types::stop::{DupLines, DupStop};
use gnb_base::outside::{Sink, Source};
use gnb_types::items::Memory;
use scenario_text::script_words::reason::TextError;
use std::alloc::Global;

/// The counter of COUNTs.
const COUNTS: u8 = 4;

/// The text of an event, and why the run stops in it.
fn happening(
    alloc: Global,
    event: &DupEvent,
    lines: DupLines,
    cause: Option<StopCause>,
) -> Result<Happening, Memory>
    ensures { IfOk result (λ h. (h.text ≡ happens_text event.now ++ print lines) × (h.cause ≡ cause)) }
{
    let text = print_happening(alloc, event, lines.as_slice())?;
    Ok(Happening { text, cause })
}

impl ScriptWord for DupConfig {
    ghost use Rattle.dup.specs.text.Texts.{InRange};
    ghost use Rattle.command_bearers.specs.command_dup.Run.{dup_meaning};
    ghost use Rattle.command_bearers.specs.command_dup.inside.Ran.{HasRun};
    ghost use Rattle.command_bearers.specs.command_dup.inside.Laws.{dup_lawful};

    type Event = DupEvent;

    type Run = Dup;

    ghost meaning = { dup_meaning };

    ghost valid = { λ config. (4 ≤ config.quota) × (config.quota ≤ 4096) };

    ghost in_range = { InRange };

    ghost ran = { HasRun };

    fn begin(&self, alloc: Global) -> Result<Dup, Memory> {
        Dup::new(alloc, self.sn, self.quota)
    }

    fn read_event(&self, alloc: Global, line: &[u8]) -> Result<DupEvent, TextError> {
        read::read_event(alloc, line)
    }

    fn apply(&self, alloc: Global, run: &mut Dup, event: &DupEvent) -> Result<Happening, Memory> {
        match run.apply(alloc, event) {
            Ok(lines) => happening(alloc, event, lines, None),
            Err(DupStop::Outstanding { lines, .. }) => {
                happening(alloc, event, lines, Some(StopCause::Outstanding))
            }
            Err(DupStop::CountsSpent { lines }) => {
                happening(
                    alloc,
                    event,
                    lines,
                    Some(StopCause::Spent { counter: COUNTS }),
                )
            }
            Err(DupStop::Memory) => Err(Memory::told()),
        }
    }

    ghost lawful = { dup_lawful };
}

/// Runs a script of one bearer with duplication, and writes what is left to write at its end.
pub fn run_duplicate<S: Source, K: Sink>(
    alloc: Global,
    config: DupConfig,
    input: &mut S,
    output: &mut K,
) -> ScriptEnd
    requires least { 4 ≤ config.quota }
    requires most { config.quota ≤ 4096 }
    ensures meets { DupMeets config (outside (S.at input.old) (K.at output.old))
        (outside (S.at input.new) (K.at output.new)) result }

    // At a stop at a line the source was read hardly further than that line.
    ensures near { StopsAtEvent (S.at input.old) (S.at input.new) (script_status result) }

    // A whole script is run, where its bytes are reported and no call fails, unless memory runs
    // out.
    ensures complete { RunsDup config (outside (S.at input.old) (K.at output.old))
        (outside (S.at input.new) (K.at output.new)) (script_status result) }
{
    run_script(alloc, &config, input, output)
}
