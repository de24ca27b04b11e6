//! How judging a transcript ends, the status that reports it, and what is written then.

ghost use Rattle.std.specs.Prelude.{◌≡◌};
ghost use Rattle.std.specs.Option.{option_to_list};
ghost use Rattle.command_defs.specs.Ends.{end_of_input as common_end_of};
ghost use Rattle.transcript_defs.specs.Rules.{rule_number as number_of};
ghost use Rattle.command_verify.specs.Ends.{unsound_status as status_of_rule, verify_status, verify_last_lines};
ghost use Rattle.command_verify.specs.declared.end.VerifyEnd.TheVariants.{Common as CommonVerifyEnd};

use command_defs::input_defs::InputEnd;
use command_defs::{CommonEnd, Status};
use commands::command_output::{common_last_line, common_status, end_of_input, stop_line};
use scenario_text::line::OutLine;
use transcript_defs::rule::Rule;

/// How judging a transcript ended.
#[derive(Clone, Copy, PartialEq, Eq)]
pub enum VerifyEnd {
    /// Every line keeps each rule, and the text ends as a run does.
    Sound { lines: u64 },
    /// The line at `place` breaks this rule first, or the text ends there too early.
    Unsound { place: u64, rule: Rule },
    /// An end that each word has.
    Common(CommonEnd),
}

impl From<InputEnd> for VerifyEnd {
    ghost from_gives = { λ end verdict. verdict ≡ CommonVerifyEnd (common_end_of end) };

    fn from(end: InputEnd) -> VerifyEnd {
        VerifyEnd::Common(end_of_input(end))
    }
}

/// The number of a rule.
pub(crate) fn rule_number(rule: Rule) -> u16
    ensures { result ≡ number_of rule }
{
    match rule {
        Rule::Form => 1,
        Rule::Wire => 2,
        Rule::Packet => 3,
        Rule::Count => 4,
        Rule::Order => 5,
        Rule::Seen => 6,
        Rule::Spelling => 7,
        Rule::End => 8,
    }
}

/// The status of a text that breaks this rule first, at this line.
fn unsound_status(place: u64, rule: Rule) -> Status
    ensures { result ≡ status_of_rule place rule }
{
    Status {
        code: 12,
        place,
        reason: rule_number(rule),
    }
}

impl VerifyEnd {
    /// Its status.
    pub fn status(self) -> Status
        ensures { result ≡ verify_status self }
    {
        match self {
            VerifyEnd::Sound { .. } => Status {
                code: 0,
                place: 0,
                reason: 0,
            },
            VerifyEnd::Unsound { place, rule } => unsound_status(place, rule),
            VerifyEnd::Common(end) => common_status(end),
        }
    }

    /// The `stop` line, `None` where none is written.
    pub fn last_line(self) -> Option<OutLine>
        ensures { option_to_list result ≡ verify_last_lines self }
    {
        match self {
            VerifyEnd::Sound { .. } => None,
            VerifyEnd::Unsound { .. } => Some(stop_line(self.status())),
            VerifyEnd::Common(end) => common_last_line(end),
        }
    }
}
