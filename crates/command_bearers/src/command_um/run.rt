//! The word `um`, over the run of an unacknowledged bearer.

ghost use Rattle.std.specs.Prelude.{◌≡◌, ◌≤◌, ◌++◌, IfOk};
ghost use Rattle.command_defs.specs.Outside.{outside};
ghost use Rattle.um.specs.text.Print.{print, happens_text};
ghost use Rattle.command_bearers.specs.script_word.Ends.{script_status, StopsAtEvent};
ghost use Rattle.command_bearers.specs.command_um.Run.{UmMeets, RunsUm};

use crate::command_um::config::UmConfig;
use crate::script_word::{Happening, ScriptEnd, ScriptWord, StopCause, run_script};
use gnb_base::outside::{Sink, Source};
use gnb_types::items::Memory;
use scenario_text::script_words::reason::TextError;
use std::alloc::Global;
use um::run::world::UmWorld;
use um::text::print::print_happening;
use um::text::read;
use um_defs::types::event::UmEvent;
use um_defs::types::stop::{UmLines, UmStop};

/// The text of an event, and why the run stops in it.
fn happening(
    alloc: Global,
    event: &UmEvent,
    lines: UmLines,
    cause: Option<StopCause>,
) -> Result<Happening, Memory>
    ensures { IfOk result (λ h. (h.text ≡ happens_text event.now ++ print lines) × (h.cause ≡ cause)) }
{
    let text = print_happening(alloc, event, lines.as_slice())?;
    Ok(Happening { text, cause })
}

impl ScriptWord for UmConfig {
    ghost use Rattle.um.specs.text.Texts.{InRange};
    ghost use Rattle.command_bearers.specs.command_um.Run.{um_meaning};
    ghost use Rattle.command_bearers.specs.command_um.inside.Ran.{HasRun};
    ghost use Rattle.command_bearers.specs.command_um.inside.Laws.{um_lawful};

    type Event = UmEvent;

    type Run = UmWorld;

    ghost meaning = { um_meaning };

    ghost valid = { λ config. (1 ≤ config.ticks) × (config.ticks ≤ 1000) };

    ghost in_range = { InRange };

    ghost ran = { HasRun };

    fn begin(&self, alloc: Global) -> Result<UmWorld, Memory> {
        UmWorld::new(alloc, self.sn, self.ticks)
    }

    fn read_event(&self, alloc: Global, line: &[u8]) -> Result<UmEvent, TextError> {
        read::read_event(alloc, line)
    }

    fn apply(
        &self,
        alloc: Global,
        run: &mut UmWorld,
        event: &UmEvent,
    ) -> Result<Happening, Memory> {
        match run.apply(alloc, event) {
            Ok(lines) => happening(alloc, event, lines, None),
            Err(UmStop::Outstanding { lines, .. }) => {
                happening(alloc, event, lines, Some(StopCause::Outstanding))
            }
            Err(UmStop::Spent { counter, lines }) => {
                happening(alloc, event, lines, Some(StopCause::Spent { counter }))
            }
            Err(UmStop::Memory) => Err(Memory::told()),
        }
    }

    ghost lawful = { um_lawful };
}

/// Runs a script of one unacknowledged bearer, and writes what is left to write at its end.
pub fn run_um<S: Source, K: Sink>(
    alloc: Global,
    config: UmConfig,
    input: &mut S,
    output: &mut K,
) -> ScriptEnd
    requires least { 1 ≤ config.ticks }
    requires most { config.ticks ≤ 1000 }
    ensures meets { UmMeets config (outside (S.at input.old) (K.at output.old))
        (outside (S.at input.new) (K.at output.new)) result }

    // At a stop at a line the source was read hardly further than that line.
    ensures near { StopsAtEvent (S.at input.old) (S.at input.new) (script_status result) }

    // A whole script is run, where its bytes are reported and no call fails, unless memory runs
    // out.
    ensures complete { RunsUm config (outside (S.at input.old) (K.at output.old))
        (outside (S.at input.new) (K.at output.new)) (script_status result) }
{
    run_script(alloc, &config, input, output)
}
