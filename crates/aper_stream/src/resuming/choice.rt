//! CHOICE.

ghost use Rattle.std.specs.Prelude.{ℕ, ◌≡◌, ◌∷◌, ◌+◌, ◌*◌, ◌<◌, ◌≤◌, length, Some, IfOk, option_copied};
ghost use Rattle.asn1_syntax.specs.types.Members.{additions_of};
ghost use Rattle.aper_defs.specs.Asking.{asks};
ghost use Rattle.aper_defs.specs.Trees.{Tree, choice};
ghost use Rattle.aper_defs.specs.Values as seen;
ghost use Rattle.aper_defs.specs.Fields as fields;
ghost use Rattle.aper_values.specs.types.Types.{choice_tree, parts_of};
ghost use Rattle.aper_frames.specs.Frames.{path_of, next_of};
ghost use Rattle.aper_frames.specs.Weights.{part_weight, choice_weight, frames_weight};
ghost use Rattle.aper_frames.specs.aper_elements.Added.{asked_added};
ghost use Rattle.aper_stream.specs.resuming.Turns.{left, IsLeft, Resumes, Keeps};
ghost use Rattle.aper_stream.specs.resuming.Weights.{weight_left, pending_weight, Lightens};

use crate::resuming::pending::Pending;
use aper_cursor::asking::ask_index;
use aper_cursor::{Cursor, Unanswered};
use aper_fields::members::rows::named;
use aper_frames::{AlternativeFrame, Frame, Stack};
use asn1_syntax::types::{Component, Extensible};
use gnb_types::items::Memory;

/// Begins a value of a CHOICE with these alternatives, 1 to 256 in its root.
pub fn begin_choice<'m>(
    cursor: &mut Cursor,
    frames: &mut Stack<'m>,
    members: &'m Extensible<Component>,
) -> Result<Pending<'m>, Unanswered>
    requires some { 1 ≤ length members.now.root }
    requires most { length members.now.root ≤ 256 }
    ensures asked { Resumes (λ of. asks (path_of frames.old) (choice_tree of members.now) (next_of of frames.old)) cursor.old cursor.new frames.new result }
    ensures lighter { Lightens (λ w. 2 * (choice_weight w members.now.root (additions_of members.now.additions) + frames_weight w frames.old)) frames.new result }
    ensures kept { Keeps frames.old frames.new result }
{
    let extensible = members.additions.is_some();
    let additions = named(&members.additions);
    begin_alternatives(
        cursor,
        frames,
        extensible,
        members.root.as_slice(),
        additions,
    )
}

/// A CHOICE of these alternatives and additions.
fn begin_alternatives<'m>(
    cursor: &mut Cursor,
    frames: &mut Stack<'m>,
    extensible: bool,
    root: &'m [Component],
    additions: &'m [Component],
) -> Result<Pending<'m>, Unanswered>
    requires some { 1 ≤ length root.now }
    requires most { length root.now ≤ 256 }
    ensures asked { Resumes (λ of. asks (path_of frames.old) (choice extensible (parts_of of root.now) (parts_of of additions.now)) (next_of of frames.old))
        cursor.old cursor.new frames.new result }
    ensures lighter { Lightens (λ w. 2 * (choice_weight w root.now additions.now + frames_weight w frames.old)) frames.new result }
    ensures kept { Keeps frames.old frames.new result }
{
    let count = root.len();
    let index = ask_index(cursor, count as u64, extensible)? as usize;
    if index < count {
        Ok(begin_root(frames, index as u32, &root[index])?)
    } else {
        Ok(begin_added(index as u32, additions.get(index - count)))
    }
}

/// An alternative of the root.
fn begin_root<'m>(
    frames: &mut Stack<'m>,
    index: u32,
    alternative: &'m Component,
) -> Result<Pending<'m>, Memory>
    ensures asked { IfOk result (λ next. (of : ℕ → Tree) → asks (fields.component alternative.now.name ∷ path_of frames.old) (of alternative.now.definition.number)
        (λ v. next_of of frames.old (seen.chosen index v)) ≡ left of next frames.new) }
    ensures lighter { Lightens (λ w. 2 * (part_weight w (Some alternative.now) + frames_weight w frames.old)) frames.new result }
{
    let name = Some(alternative.name.as_slice());
    frames.push(Frame::Alternative(AlternativeFrame { name, index }))?;
    Ok(Pending::Read(alternative.definition))
}

/// An alternative past the root.
fn begin_added<'m>(index: u32, added: Option<&'m Component>) -> Pending<'m>
    ensures asked { IsLeft (λ fs of. asked_added of (path_of fs) (λ v. next_of of fs (seen.chosen index v)) (option_copied added.entry)) result }
    ensures lighter { (w : ℕ → ℕ) → pending_weight w result < 2 * (part_weight w (option_copied added.entry) + 3) }
{
    match added {
        None => Pending::Unknown(Frame::Alternative(AlternativeFrame { name: None, index })),
        Some(alternative) => {
            let name = Some(alternative.name.as_slice());
            Pending::Inside {
                frame: Frame::Alternative(AlternativeFrame { name, index }),
                definition: alternative.definition,
            }
        }
    }
}
