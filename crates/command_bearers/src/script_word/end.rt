//! How a script ends, the status that reports it, and what is written then.

ghost use Rattle.std.specs.Prelude.{◌≡◌};
ghost use Rattle.std.specs.Option.{option_to_list};
ghost use Rattle.command_defs.specs.Ends.{end_of_input as common_end_of};
ghost use Rattle.command_bearers.specs.script_word.Ends.{stop_status as status_of_stop, script_status, script_last_lines};
ghost use Rattle.command_bearers.specs.declared.script_word.end.ScriptEnd.TheVariants.{Common as CommonScriptEnd};

use command_defs::input_defs::InputEnd;
use command_defs::{CommonEnd, Status};
use commands::command_output::{
    common_last_line, common_status, end_of_input, line_status, stop_line,
};
use scenario_text::line::OutLine;
use scenario_text::script_words::reason::TextReason;

/// Why a run stops in an event.
#[derive(Clone, Copy, PartialEq, Eq)]
pub enum StopCause {
    /// After it more COUNTs are outstanding than half a space.
    Outstanding,
    /// In it a counter, by its number, would pass its last value.
    Spent { counter: u8 },
}

/// How a script ended.
#[derive(Clone, Copy, PartialEq, Eq)]
pub enum ScriptEnd {
    /// The input was read to its end, and every event was applied.
    Done { events: u64 },
    /// The line at `place` is not an event.
    Script { place: u64, reason: TextReason },
    /// The run stopped in the event at line `place`.
    Stopped { place: u64, cause: StopCause },
    /// An end that each word has.
    Common(CommonEnd),
}

impl From<InputEnd> for ScriptEnd {
    ghost from_gives = { λ end script. script ≡ CommonScriptEnd (common_end_of end) };

    fn from(end: InputEnd) -> ScriptEnd {
        ScriptEnd::Common(end_of_input(end))
    }
}

impl From<CommonEnd> for ScriptEnd {
    ghost from_gives = { λ end script. script ≡ CommonScriptEnd end };

    fn from(end: CommonEnd) -> ScriptEnd {
        ScriptEnd::Common(end)
    }
}

/// The status of a run that stopped for this cause in the event at this line.
fn stop_status(place: u64, cause: StopCause) -> Status
    ensures { result ≡ status_of_stop place cause }
{
    match cause {
        StopCause::Outstanding => Status {
            code: 5,
            place,
            reason: 0,
        },
        StopCause::Spent { counter } => Status {
            code: 10,
            place,
            reason: u16::from(counter),
        },
    }
}

impl ScriptEnd {
    /// Its status.
    pub fn status(self) -> Status
        ensures { result ≡ script_status self }
    {
        match self {
            ScriptEnd::Done { .. } => Status {
                code: 0,
                place: 0,
                reason: 0,
            },
            ScriptEnd::Script { place, reason } => line_status(place, reason),
            ScriptEnd::Stopped { place, cause } => stop_status(place, cause),
            ScriptEnd::Common(end) => common_status(end),
        }
    }

    /// The last line of the output, `None` where nothing more is written.
    pub fn last_line(self) -> Option<OutLine>
        ensures { option_to_list result ≡ script_last_lines self }
    {
        match self {
            ScriptEnd::Done { events } => Some(OutLine::End { events }),
            ScriptEnd::Script { .. } | ScriptEnd::Stopped { .. } => Some(stop_line(self.status())),
            ScriptEnd::Common(end) => common_last_line(end),
        }
    }
}
