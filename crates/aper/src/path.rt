//! Ways to values as text.

ghost use Rattle.std.specs.Prelude.{◌≡◌, IfOk};
ghost use Rattle.aper_frames.specs.Paths.{path_view, step_view};
ghost use Rattle.aper.specs.PathText.{path_text, step_text, outcome_text};

use aper_frames::Step;
use gnb_types::octets::{Memory, Octets};
use std::alloc::Global;

/// The text of a way from the whole value on.
pub fn path_text(alloc: Global, path: &[Step]) -> Result<Octets, Memory>
    ensures { IfOk result (λ text. text ≡ path_text (path_view path.now)) }
{
    let Some((first, others)) = path.split_first() else {
        return Octets::from_slice(alloc, b"-");
    };
    let mut text = step_text(alloc, first)?;
    for step in others {
        text.append(b".")?;
        text.extend(step_text(alloc, step)?)?;
    }
    Ok(text)
}

/// The text of a step.
fn step_text(alloc: Global, step: &Step) -> Result<Octets, Memory>
    ensures { IfOk result (λ text. text ≡ step_text (step_view step.now)) }
{
    match step {
        Step::Component(name) => Octets::from_slice(alloc, name),
        Step::Member(index) => {
            let text = format!(in alloc; "[{index}]")?;
            Ok(Octets::from_vec(text.into_bytes()))
        }
        Step::Element(id) => {
            let text = format!(in alloc; "#{id}")?;
            Ok(Octets::from_vec(text.into_bytes()))
        }
        Step::Outcome(index) => Octets::from_slice(alloc, outcome_text(*index)),
    }
}

/// The name of a PDU's outcome.
fn outcome_text(index: u32) -> &'static [u8]
    ensures { result.now ≡ outcome_text index }
{
    match index {
        0 => b"initiatingMessage",
        1 => b"successfulOutcome",
        _ => b"unsuccessfulOutcome",
    }
}
