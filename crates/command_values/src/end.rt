//! How these words end, the status that reports it, and what is written then.

ghost use Rattle.std.specs.Prelude.{◌≡◌, IfOk};
ghost use Rattle.std.specs.Option.{option_to_list};
ghost use Rattle.command_defs.specs.Ends.{end_of_input as common_end_of};
ghost use Rattle.command_values.specs.Ends.{stop_status, values_status, wrong_line as line_of_wrong, report_of, values_report, values_last_lines};
ghost use Rattle.command_values.specs.inside.Stops.{end_of_stop};
ghost use Rattle.command_values.specs.declared.end.ValuesEnd.TheVariants.{Common as CommonValuesEnd};

use crate::answer::Wrong;
use asn1_syntax::types::ModuleReason;
use command_defs::input_defs::InputEnd;
use command_defs::{CommonEnd, Status};
use commands::command_output::{
    common_last_line, common_status, end_of_input, fault_text, line_status, module_status,
    stop_line,
};
use commands::input_module::ModuleStop;
use gnb_types::octets::{Memory, Octets};
use scenario_text::event::TextReason;
use scenario_text::line::OutLine;
use std::alloc::Global;

/// Why the input is not one of values alone.
#[derive(Drop)]
pub enum Stop {
    /// The text is no module: its first fault, with the line of the input.
    NoModule {
        line: u64,
        column: u64,
        reason: ModuleReason,
    },
    /// The module has no type of the name.
    NoType,
    /// The line at `place` is no header, or it is the last one of a text that goes on after its module.
    Script {
        place: u64,
        reason: TextReason,
    },
    /// The line at `place` is no value of the type.
    Value {
        place: u64,
        wrong: Wrong,
    },
}

/// How the word ended.
#[derive(Drop)]
pub enum ValuesEnd {
    /// The input was read to its end, and every line was answered.
    Done,
    Stopped(Stop),
    /// An end that each word has.
    Common(CommonEnd),
}

impl From<InputEnd> for ValuesEnd {
    ghost from_gives = { λ end values. values ≡ CommonValuesEnd (common_end_of end) };

    fn from(end: InputEnd) -> ValuesEnd {
        ValuesEnd::Common(end_of_input(end))
    }
}

impl From<ModuleStop> for ValuesEnd {
    ghost from_gives = { λ stop values. values ≡ end_of_stop stop };

    fn from(stop: ModuleStop) -> ValuesEnd {
        match stop {
            ModuleStop::NoModule {
                line,
                column,
                reason,
            } => ValuesEnd::Stopped(Stop::NoModule {
                line,
                column,
                reason,
            }),
            ModuleStop::Script { place, reason } => {
                ValuesEnd::Stopped(Stop::Script { place, reason })
            }
            ModuleStop::Input(end) => ValuesEnd::Common(end_of_input(end)),
        }
    }
}

/// The line of a value that is refused.
fn wrong_text(alloc: Global, wrong: &Wrong) -> Result<Octets, Memory>
    ensures { IfOk result (λ text. text ≡ line_of_wrong wrong.now) }
{
    let bit = wrong.bit;
    let reason = wrong.reason;
    let numbers = format!(in alloc; "wrong {bit} {reason} ")?;
    let mut text = Octets::from_vec(numbers.into_bytes());
    text.append(wrong.path.as_slice())?;
    text.push(b'\n')?;
    Ok(text)
}

impl Stop {
    /// Its status.
    fn status(&self) -> Status
        ensures { result ≡ stop_status self.now }
    {
        match self {
            Stop::NoModule { line, reason, .. } => module_status(*line, *reason),
            Stop::NoType => module_status(0, ModuleReason::Unknown),
            Stop::Script { place, reason } => line_status(*place, *reason),
            Stop::Value { place, wrong } => Status {
                code: 8,
                place: *place,
                reason: wrong.reason,
            },
        }
    }

    /// What is wrong, as it is written before the last line.
    fn report(&self, alloc: Global) -> Result<Octets, Memory>
        ensures { IfOk result (λ text. text ≡ report_of self.now) }
    {
        match self {
            Stop::NoModule {
                line,
                column,
                reason,
            } => fault_text(alloc, *line, *column, *reason),
            Stop::NoType => fault_text(alloc, 0, 0, ModuleReason::Unknown),
            Stop::Script { .. } => Ok(Octets::new(alloc)),
            Stop::Value { wrong, .. } => wrong_text(alloc, wrong),
        }
    }
}

impl ValuesEnd {
    /// Its status.
    pub fn status(&self) -> Status
        ensures { result ≡ values_status self.now }
    {
        match self {
            ValuesEnd::Done => Status {
                code: 0,
                place: 0,
                reason: 0,
            },
            ValuesEnd::Stopped(stop) => stop.status(),
            ValuesEnd::Common(end) => common_status(*end),
        }
    }

    /// What is wrong with the module or a value, as it is written before the last line; of another end nothing.
    pub fn report(&self, alloc: Global) -> Result<Octets, Memory>
        ensures { IfOk result (λ text. text ≡ values_report self.now) }
    {
        match self {
            ValuesEnd::Stopped(stop) => stop.report(alloc),
            ValuesEnd::Done | ValuesEnd::Common(_) => Ok(Octets::new(alloc)),
        }
    }

    /// The last line of the output, `None` where nothing more is written.
    pub fn last_line(&self) -> Option<OutLine>
        ensures { option_to_list result ≡ values_last_lines self.now }
    {
        match self {
            ValuesEnd::Done => None,
            ValuesEnd::Stopped(stop) => Some(stop_line(stop.status())),
            ValuesEnd::Common(end) => common_last_line(*end),
        }
    }
}
