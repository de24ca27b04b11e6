//! How a run ends, the status that reports it, and what is written then.

ghost use Rattle.std.specs.Prelude.{◌≡◌, ◌∷◌, [], IfOk};
ghost use Rattle.scenario_text.specs.Print.{print};
ghost use Rattle.std.specs.Option.{option_to_list};
ghost use Rattle.command_defs.specs.Ends.{end_of_input as common_end_of};
ghost use Rattle.command_run.specs.Ends.{run_status, differs_line, report_of as report_text, run_last_lines, end_at as end_of_run};
ghost use Rattle.command_run.specs.inside.Stops.{end_of_stop};
ghost use Rattle.command_run.specs.declared.end.RunEnd.TheVariants.{Common as CommonRunEnd};

use asn1_syntax::types::ModuleReason;
use command_defs::input_defs::InputEnd;
use command_defs::{CommonEnd, Status};
use commands::command_output::{
    common_last_line, common_status, end_of_input, fault_text, line_status, module_status,
    stop_line, text_of,
};
use commands::input_module::ModuleStop;
use gnb_types::octets::{Memory, Octets};
use run_links::spans::Outstanding;
use scenario_text::event::TextReason;
use scenario_text::line::OutLine;
use std::alloc::Global;
use world_steps::cause::Cause;

/// How a run ended.
#[derive(Drop)]
pub enum RunEnd {
    /// The input was read to its end, and every event was applied.
    Done {
        events: u64,
    },
    /// The text is no module: its first fault, with the line of the input.
    NoModule {
        line: u64,
        column: u64,
        reason: ModuleReason,
    },
    /// The module isn't the profile's: the first name by which it differs.
    Differs {
        name: Octets,
    },
    /// The line at `place` is no header or no event, or it is the last one of a text that goes on
    /// after its module.
    Script {
        place: u64,
        reason: TextReason,
    },
    /// After a step of the event at line `place` the COUNTs of a bearer span more than half the
    /// space of its numbers.
    Outstanding {
        place: u64,
        outstanding: Outstanding,
    },
    /// In a step of the event at line `place` a counter, by its number, would pass its last value.
    Spent {
        place: u64,
        counter: u8,
    },
    /// An end that each word has.
    Common(CommonEnd),
}

impl From<InputEnd> for RunEnd {
    ghost from_gives = { λ end run. run ≡ CommonRunEnd (common_end_of end) };

    fn from(end: InputEnd) -> RunEnd {
        RunEnd::Common(end_of_input(end))
    }
}

impl From<CommonEnd> for RunEnd {
    ghost from_gives = { λ end run. run ≡ CommonRunEnd end };

    fn from(end: CommonEnd) -> RunEnd {
        RunEnd::Common(end)
    }
}

impl From<ModuleStop> for RunEnd {
    ghost from_gives = { λ stop run. run ≡ end_of_stop stop };

    fn from(stop: ModuleStop) -> RunEnd {
        match stop {
            ModuleStop::NoModule {
                line,
                column,
                reason,
            } => RunEnd::NoModule {
                line,
                column,
                reason,
            },
            ModuleStop::Script { place, reason } => RunEnd::Script { place, reason },
            ModuleStop::Input(end) => RunEnd::Common(end_of_input(end)),
        }
    }
}

/// The end of a script whose run stops for this cause in the event at this line.
pub(crate) fn end_at(place: u64, cause: Cause) -> RunEnd
    ensures { result ≡ end_of_run place cause }
{
    match cause {
        Cause::Outstanding(outstanding) => RunEnd::Outstanding { place, outstanding },
        Cause::Spent(counter) => RunEnd::Spent { place, counter },
        Cause::Memory => RunEnd::Common(CommonEnd::Memory),
    }
}

/// The line of a module that isn't the profile's.
fn differs_text(alloc: Global, name: &Octets) -> Result<Octets, Memory>
    ensures { IfOk result (λ text. text ≡ differs_line name.now) }
{
    let mut text = Octets::from_slice(alloc, b"differs ")?;
    text.append(name.as_slice())?;
    text.push(b'\n')?;
    Ok(text)
}

impl RunEnd {
    /// Its status.
    pub fn status(&self) -> Status
        ensures { result ≡ run_status self.now }
    {
        match self {
            RunEnd::Done { .. } => Status {
                code: 0,
                place: 0,
                reason: 0,
            },
            RunEnd::NoModule { line, reason, .. } => module_status(*line, *reason),
            RunEnd::Differs { .. } => Status {
                code: 3,
                place: 0,
                reason: 20,
            },
            RunEnd::Script { place, reason } => line_status(*place, *reason),
            RunEnd::Outstanding { place, .. } => Status {
                code: 5,
                place: *place,
                reason: 0,
            },
            RunEnd::Spent { place, counter } => Status {
                code: 10,
                place: *place,
                reason: u16::from(*counter),
            },
            RunEnd::Common(end) => common_status(*end),
        }
    }

    /// What is wrong with the module, or which bearer is outstanding, as it is written before the
    /// last line; of another end nothing.
    pub fn report(&self, alloc: Global) -> Result<Octets, Memory>
        ensures { IfOk result (λ text. text ≡ report_text self.now) }
    {
        match self {
            RunEnd::NoModule {
                line,
                column,
                reason,
            } => fault_text(alloc, *line, *column, *reason),
            RunEnd::Differs { name } => differs_text(alloc, name),
            RunEnd::Outstanding { outstanding, .. } => text_of(alloc, &[outstanding.line()]),
            RunEnd::Done { .. }
            | RunEnd::Script { .. }
            | RunEnd::Spent { .. }
            | RunEnd::Common(_) => { Ok(Octets::new(alloc)) }
        }
    }

    /// The last line of the output, `None` where nothing more is written.
    pub fn last_line(&self) -> Option<OutLine>
        ensures { option_to_list result ≡ run_last_lines self.now }
    {
        match self {
            RunEnd::Done { events } => Some(OutLine::End { events: *events }),
            RunEnd::NoModule { .. }
            | RunEnd::Differs { .. }
            | RunEnd::Script { .. }
            | RunEnd::Outstanding { .. }
            | RunEnd::Spent { .. } => Some(stop_line(self.status())),
            RunEnd::Common(end) => common_last_line(*end),
        }
    }
}
