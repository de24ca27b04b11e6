//! The statuses that each word has, and the line that reports one.

ghost use Rattle.std.specs.Prelude.{◌≡◌, IfOk};
ghost use Rattle.std.specs.Option.{option_to_list};
ghost use Rattle.command_defs.specs.Ends.{end_of_input as end_of};
ghost use Rattle.command_defs.specs.Statuses.{module_reason_code, module_status as status_of_module, fault_line, reason_code as number_of, line_status as status_of_line, common_status as status_of_end, stop_line as line_of, common_last_lines};

use asn1_syntax::types::ModuleReason;
use command_defs::input_defs::InputEnd;
use command_defs::{CommonEnd, Status};
use gnb_types::octets::{Memory, Octets};
use scenario_text::event::TextReason;
use scenario_text::line::OutLine;
use std::alloc::Global;

/// The place of the byte that is one too many.
const PAST_LIMIT: u64 = 16_777_217;

/// The number of a reason.
fn reason_code(reason: TextReason) -> u16
    ensures { result ≡ number_of reason }
{
    match reason {
        TextReason::Word => 1,
        TextReason::Number => 2,
        TextReason::Hex => 3,
        TextReason::Extra => 4,
        TextReason::Name => 5,
    }
}

/// The number of a reason why a text is no module.
fn module_code(reason: ModuleReason) -> u16
    ensures { result ≡ module_reason_code reason }
{
    match reason {
        ModuleReason::Token => 1,
        ModuleReason::Form => 2,
        ModuleReason::Unknown => 3,
        ModuleReason::Twice => 4,
        ModuleReason::Recursive => 5,
        ModuleReason::OutOfProfile => 6,
        ModuleReason::Bounds => 7,
        ModuleReason::Deep => 8,
        ModuleReason::Truncated => 9,
    }
}

/// The status of a text that is no module.
pub fn module_status(place: u64, reason: ModuleReason) -> Status
    ensures { result ≡ status_of_module place reason }
{
    Status {
        code: 3,
        place,
        reason: module_code(reason),
    }
}

/// The line of a module's first fault, with its LF.
pub fn fault_text(
    alloc: Global,
    line: u64,
    column: u64,
    reason: ModuleReason,
) -> Result<Octets, Memory>
    ensures { IfOk result (λ text. text ≡ fault_line line column reason) }
{
    let code = module_code(reason);
    let text = format!(in alloc; "module {line} {column} {code}\n")?;
    Ok(Octets::from_vec(text.into_bytes()))
}

/// The status of a wrong line.
pub fn line_status(place: u64, reason: TextReason) -> Status
    ensures { result ≡ status_of_line place reason }
{
    Status {
        code: 4,
        place,
        reason: reason_code(reason),
    }
}

/// The status of an end that each word has.
pub fn common_status(end: CommonEnd) -> Status
    ensures { result ≡ status_of_end end }
{
    let (code, place) = match end {
        CommonEnd::ReadFault { taken } => (6, taken),
        CommonEnd::WriteFault => (7, 0),
        CommonEnd::Memory => (9, 0),
        CommonEnd::TooLong => (11, PAST_LIMIT),
    };
    Status {
        code,
        place,
        reason: 0,
    }
}

/// The end of a word whose input ended so.
pub fn end_of_input(end: InputEnd) -> CommonEnd
    ensures { result ≡ end_of end }
{
    match end {
        InputEnd::ReadFault { taken } => CommonEnd::ReadFault { taken },
        InputEnd::TooLong => CommonEnd::TooLong,
        InputEnd::Memory => CommonEnd::Memory,
    }
}

/// The `stop` line of a status.
pub fn stop_line(status: Status) -> OutLine
    ensures { result ≡ line_of status }
{
    let Status {
        code,
        place,
        reason,
    } = status;
    OutLine::Stop {
        code,
        place,
        reason,
    }
}

/// The last line of the output at such an end, `None` where nothing more is written.
pub fn common_last_line(end: CommonEnd) -> Option<OutLine>
    ensures { option_to_list result ≡ common_last_lines end }
{
    match end {
        CommonEnd::ReadFault { .. } | CommonEnd::TooLong => Some(stop_line(common_status(end))),
        CommonEnd::WriteFault | CommonEnd::Memory => None,
    }
}
