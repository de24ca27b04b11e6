//! What judging a transcript came to is written.

ghost use Rattle.std.specs.Prelude.{◌≡◌, IfOk};
ghost use Rattle.command_defs.specs.Outside.{outside};
ghost use Rattle.command_verify.specs.Ends.{verdict_line as first_text, verdict_text as text_of_verdict, verify_status, StopsAtVerdict};
ghost use Rattle.command_verify.specs.Verify.{VerifyMeets};
ghost use Rattle.command_verify.specs.Whole.{VerifiesWholly};

use crate::end::{VerifyEnd, rule_number};
use crate::judging::judge;
use command_defs::CommonEnd;
use commands::command_output::{text_of, write_all};
use gnb_base::outside::{Sink, Source};
use gnb_types::octets::{Memory, Octets};
use std::alloc::Global;
use transcript_check::spells::Spells;

/// The line of a verdict, with its LF; an end that each word has has none.
#[tactic(auto, unfolding(crate::specs::Ends::verdict_line))]
fn verdict_line(alloc: Global, verdict: VerifyEnd) -> Result<Octets, Memory>
    ensures { IfOk result (λ text. text ≡ first_text verdict) }
{
    match verdict {
        VerifyEnd::Sound { lines } => {
            let text = format!(in alloc; "sound {lines}\n")?;
            Ok(Octets::from_vec(text.into_bytes()))
        }
        VerifyEnd::Unsound { place, rule } => {
            let number = rule_number(rule);
            let text = format!(in alloc; "unsound {place} {number}\n")?;
            Ok(Octets::from_vec(text.into_bytes()))
        }
        VerifyEnd::Common(_) => Ok(Octets::new(alloc)),
    }
}

/// All that is written of a verdict.
fn verdict_text(alloc: Global, verdict: VerifyEnd) -> Result<Octets, Memory>
    ensures { IfOk result (λ text. text ≡ text_of_verdict verdict) }
{
    let mut text = verdict_line(alloc, verdict)?;
    if let Some(line) = verdict.last_line() {
        text.append(text_of(alloc, &[line])?.as_slice())?;
    }
    Ok(text)
}

/// Judges the lines of an input as a transcript, and writes what that came to.
pub fn verify<P: Spells, S: Source, K: Sink>(
    alloc: Global,
    spells: &P,
    input: &mut S,
    output: &mut K,
) -> VerifyEnd
    ensures meets { VerifyMeets (P.spelling spells.now) (outside (S.at input.old) (K.at output.old))
        (outside (S.at input.new) (K.at output.new)) result }

    // At a line that breaks a rule the source was read hardly further than that line.
    ensures near { StopsAtVerdict (S.at input.old) (S.at input.new) (verify_status result) }

    // A whole input is judged, where its bytes are reported and no call fails, unless memory runs
    // out.
    ensures complete { VerifiesWholly (P.spelling spells.now)
        (outside (S.at input.old) (K.at output.old))
        (outside (S.at input.new) (K.at output.new)) (verify_status result) }
{
    let verdict = judge(alloc, spells, input);
    let Ok(text) = verdict_text(alloc, verdict) else {
        return VerifyEnd::Common(CommonEnd::Memory);
    };
    match write_all(output, text.as_slice()) {
        Ok(()) => verdict,
        Err(_) => VerifyEnd::Common(CommonEnd::WriteFault),
    }
}
