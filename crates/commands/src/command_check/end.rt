//! How a check ends, and the status that reports it.

ghost use Rattle.std.specs.Prelude.{◌≡◌};
ghost use Rattle.std.specs.Option.{option_to_list};
ghost use Rattle.commands.specs.command_check.Report.{check_status, check_last_lines};

use crate::command_output::{
    common_last_line, common_status, line_status, module_status, stop_line,
};
use asn1_syntax::types::ModuleReason;
use command_defs::{CommonEnd, Status};
use scenario_text::event::TextReason;
use scenario_text::line::OutLine;

/// How a check ended.
#[derive(Clone, Copy, PartialEq, Eq)]
pub enum CheckEnd {
    /// The input is a header and a module, and its name was written.
    Checked,
    /// The text is no module; its first fault stands in the line at `place`.
    NoModule { place: u64, reason: ModuleReason },
    /// The line at `place` is no header or one too many.
    Script { place: u64, reason: TextReason },
    /// An end that each word has.
    Common(CommonEnd),
}

impl CheckEnd {
    /// Its status.
    pub fn status(&self) -> Status
        ensures { result ≡ check_status self.now }
    {
        match *self {
            CheckEnd::Checked => Status {
                code: 0,
                place: 0,
                reason: 0,
            },
            CheckEnd::NoModule { place, reason } => module_status(place, reason),
            CheckEnd::Script { place, reason } => line_status(place, reason),
            CheckEnd::Common(end) => common_status(end),
        }
    }

    /// The `stop` line, `None` where none is written.
    pub fn last_line(&self) -> Option<OutLine>
        ensures { option_to_list result ≡ check_last_lines self.now }
    {
        match *self {
            CheckEnd::Checked => None,
            CheckEnd::NoModule { .. } | CheckEnd::Script { .. } => Some(stop_line(self.status())),
            CheckEnd::Common(end) => common_last_line(end),
        }
    }
}
