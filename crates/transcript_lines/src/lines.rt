//! Lines of a transcript are read.

ghost use Rattle.std.specs.Prelude.{◌≡◌, IfOk, IfSome, IsSomeAnd};
ghost use Rattle.std.specs.Str.{bytes_eq};
ghost use Rattle.transcript_defs.specs.Lines.{IsLineOf, text_of};
ghost use Rattle.transcript_defs.specs.declared.line.TextLine.{TextLine as Line};

mod fields;
mod forms;
mod reasons;

use gnb_types::items::Memory;
use gnb_types::octets::Octets;
use scenario_text::print::print_line;
use scenario_text::script_words::reason::TextError;
use std::alloc::Global;
use transcript_defs::line::TextLine;

/// The text of a line, without its line feed.
#[tactic(auto, unfolding(transcript_defs::specs::Lines::text_of))]
fn print(alloc: Global, line: &TextLine) -> Result<Octets, Memory>
    ensures { IfOk result (λ text. text ≡ text_of line.now) }
{
    match line {
        TextLine::Printed { line } => print_line(alloc, line),
        TextLine::LostMore { message, items } => {
            let text = format!(in alloc; "lost #{message} {items}")?;
            Ok(Octets::from_vec(text.into_bytes()))
        }
        TextLine::OutstandingWide {
            ue,
            bearer,
            dir,
            span,
            window,
        } => {
            let text = format!(in alloc; "outstanding {ue} {bearer} {dir} {span} {window}")?;
            Ok(Octets::from_vec(text.into_bytes()))
        }
    }
}

/// Whether the line is written as this text.
fn is_written(alloc: Global, line: &TextLine, text: &[u8]) -> Result<bool, Memory>
    ensures { IfOk result (λ same. same ≡ bytes_eq (text_of line.now) text.now) }
{
    let printed = print(alloc, line)?;
    Ok(printed.as_slice() == text)
}

/// The line of a transcript that a text is, without its line feed; None where it is none.
pub fn read_line(alloc: Global, text: &[u8]) -> Result<Option<TextLine>, Memory>
    ensures found { IfOk result (λ found. IfSome found (λ line. IsLineOf text.now line)) }
    ensures only { (line : Line) → IsLineOf text.now line → IfOk result (λ found. IsSomeAnd found (λ x. x ≡ line)) }
{
    let line = match forms::line_of(alloc, text) {
        Ok(line) => line,
        Err(TextError::Refused(_)) => return Ok(None),
        Err(TextError::Memory) => return Err(Memory::told()),
    };
    // Hexadecimal digits of either case are read, and only upper case is printed.
    let exact = is_written(alloc, &line, text)?;
    if !exact {
        return Ok(None);
    }
    Ok(Some(line))
}
