//! The lines of an input are read and judged, one after another.

ghost use Rattle.std.specs.Prelude.{◌≡◌, ◌<◌, ◌≤◌, ℕ, IfOk, IfSome};
ghost use Rattle.gnb_base.specs.Outside.{SourceAt};
ghost use Rattle.gnb_base.specs.Reading.{still_to_come, input_limit};
ghost use Rattle.command_verify.specs.Verify.{Judges};
ghost use Rattle.command_verify.specs.inside.Turns.{end_of_check, judged_at, SoFar, TurnMeets, Finishes};

use crate::end::VerifyEnd;
use command_defs::CommonEnd;
use commands::input_lines::next_line;
use gnb_base::lines::LineReader;
use gnb_base::outside::Source;
use std::alloc::Global;
use transcript_check::checker::{CheckError, Checker};
use transcript_check::spells::Spells;

/// How judging ends where the checker doesn't go on after the line before `place`, or not past the end there.
fn end_of(error: CheckError, place: u64) -> VerifyEnd
    ensures { result ≡ end_of_check error place }
{
    match error {
        CheckError::Unsound { rule } => VerifyEnd::Unsound { place, rule },
        CheckError::Memory => VerifyEnd::Common(CommonEnd::Memory),
    }
}

/// Reads the next line and judges it. Answers its number; `None` at the end of the input.
fn take_line<P: Spells, S: Source>(
    alloc: Global,
    spells: &P,
    reader: &mut LineReader,
    checker: &mut Checker,
    input: &mut S,
) -> Result<Option<u64>, VerifyEnd>
    ensures meets { (first : SourceAt) (count : ℕ)
        → SoFar (P.spelling spells.now) first
        (judged_at reader.old (S.at input.old) checker.old count)
        → TurnMeets (P.spelling spells.now) first
        (judged_at reader.new (S.at input.new) checker.new count) result }
    ensures falls { IfOk result (λ found. IfSome found (λ number. still_to_come reader.new < still_to_come reader.old)) }
{
    let Some(line) = next_line(reader, input)? else {
        return Ok(None);
    };
    match checker.line(alloc, spells, line.text.as_slice()) {
        Ok(()) => Ok(Some(line.number)),
        Err(error) => Err(end_of(error, line.number)),
    }
}

/// Ends a text of so many lines, each of which was judged.
fn finish(checker: &Checker, count: u64) -> VerifyEnd
    requires { count ≤ input_limit }
    ensures { Finishes checker.now count result }
{
    match checker.finish() {
        Ok(lines) => VerifyEnd::Sound { lines },
        Err(error) => end_of(error, count + 1),
    }
}

/// Judges the lines of an input. Nothing is written.
pub(crate) fn judge<P: Spells, S: Source>(alloc: Global, spells: &P, input: &mut S) -> VerifyEnd
    ensures { Judges (P.spelling spells.now) (S.at input.old) (S.at input.new) result }
{
    let Ok(mut reader) = LineReader::new(alloc) else {
        return VerifyEnd::Common(CommonEnd::Memory);
    };
    let Ok(mut checker) = Checker::new(alloc) else {
        return VerifyEnd::Common(CommonEnd::Memory);
    };
    let mut count = 0;
    loop {
        match take_line(alloc, spells, &mut reader, &mut checker, input) {
            Ok(Some(number)) => count = number,
            Ok(None) => return finish(&checker, count),
            Err(end) => return end,
        }
    }
}
