//! CHOICE.

ghost use Rattle.std.specs.Prelude.{◌∷◌, ◌+◌, ◌≤◌, length, Some, option_copied};
ghost use Rattle.asn1_syntax.specs.types.Members.{additions_of};
ghost use Rattle.aper_defs.specs.Asking.{asks};
ghost use Rattle.aper_defs.specs.Trees.{choice};
ghost use Rattle.aper_defs.specs.Values as seen;
ghost use Rattle.aper_defs.specs.Fields as fields;
ghost use Rattle.aper_defs.specs.Reading.{Cursor as Place};
ghost use Rattle.aper_values.specs.types.Types.{choice_tree, parts_of};
ghost use Rattle.aper_frames.specs.Frames.{path_of, next_of};
ghost use Rattle.aper_frames.specs.Steps.{Steps};
ghost use Rattle.aper_frames.specs.Weights.{part_weight, choice_weight, frames_weight, Lighter};
ghost use Rattle.aper_frames.specs.aper_elements.Added.{asked_added};

use crate::{AlternativeFrame, Frame, Stack, Turn, ask_inside, ask_unknown};
use aper_cursor::asking::ask_index;
use aper_cursor::{Cursor, Unanswered};
use aper_fields::members::rows::named;
use asn1_syntax::types::{Component, Extensible};
use std::alloc::Global;

/// Begins a value of a CHOICE with these alternatives, 1 to 256 in its root (ITU-T X.691, the choice type). Its alternative comes
/// next: one of the root as it stands, an addition in an open type, and one that isn't named as the octets of its open type.
///
/// # Errors
/// `Wrong` where the index or the open type is wrong: the cursor is at the first wrong field, and the frames lead to the value that
/// it belongs to. `Memory` where none is left.
pub fn begin_choice<'m>(
    alloc: Global,
    cursor: &mut Cursor,
    frames: &mut Stack<'m>,
    members: &'m Extensible<Component>,
) -> Result<Turn, Unanswered>
    requires some { 1 ≤ length members.now.root }
    requires most { length members.now.root ≤ 256 }
    ensures asked { Steps (λ of. asks (path_of frames.old) (choice_tree of members.now) (next_of of frames.old)) cursor.old cursor.new frames.new result }
    ensures lighter { Lighter (λ w. choice_weight w members.now.root (additions_of members.now.additions) + frames_weight w frames.old) frames.new result }
{
    let extensible = members.additions.is_some();
    let additions = named(&members.additions);
    begin_alternatives(
        alloc,
        cursor,
        frames,
        extensible,
        members.root.as_slice(),
        additions,
    )
}

/// A CHOICE of these alternatives and additions.
fn begin_alternatives<'m>(
    alloc: Global,
    cursor: &mut Cursor,
    frames: &mut Stack<'m>,
    extensible: bool,
    root: &'m [Component],
    additions: &'m [Component],
) -> Result<Turn, Unanswered>
    requires some { 1 ≤ length root.now }
    requires most { length root.now ≤ 256 }
    ensures asked { Steps (λ of. asks (path_of frames.old) (choice extensible (parts_of of root.now) (parts_of of additions.now)) (next_of of frames.old))
        cursor.old cursor.new frames.new result }
    ensures lighter { Lighter (λ w. choice_weight w root.now additions.now + frames_weight w frames.old) frames.new result }
{
    let count = root.len();
    let index = ask_index(cursor, count as u64, extensible)? as usize;
    if index < count {
        begin_root(frames, index as u32, &root[index])
    } else {
        begin_added(
            alloc,
            cursor,
            frames,
            index as u32,
            additions.get(index - count),
        )
    }
}

/// An alternative of the root.
fn begin_root<'m>(
    frames: &mut Stack<'m>,
    index: u32,
    alternative: &'m Component,
) -> Result<Turn, Unanswered>
    ensures asked { (c : Place) → Steps (λ of. asks (fields.component alternative.now.name ∷ path_of frames.old) (of alternative.now.definition.number)
        (λ v. next_of of frames.old (seen.chosen index v))) c c frames.new result }
    ensures lighter { Lighter (λ w. part_weight w (Some alternative.now) + frames_weight w frames.old) frames.new result }
{
    let name = Some(alternative.name.as_slice());
    frames.push(Frame::Alternative(AlternativeFrame { name, index }))?;
    Ok(Turn::Read(alternative.definition))
}

/// An alternative past the root.
fn begin_added<'m>(
    alloc: Global,
    cursor: &mut Cursor,
    frames: &mut Stack<'m>,
    index: u32,
    added: Option<&'m Component>,
) -> Result<Turn, Unanswered>
    ensures asked { Steps (λ of. asked_added of (path_of frames.old) (λ v. next_of of frames.old (seen.chosen index v)) (option_copied added.entry))
        cursor.old cursor.new frames.new result }
    ensures lighter { Lighter (λ w. part_weight w (option_copied added.entry) + 3 + frames_weight w frames.old) frames.new result }
{
    match added {
        None => {
            let frame = Frame::Alternative(AlternativeFrame { name: None, index });
            ask_unknown(alloc, cursor, frames, frame)
        }
        Some(alternative) => {
            let name = Some(alternative.name.as_slice());
            let frame = Frame::Alternative(AlternativeFrame { name, index });
            ask_inside(cursor, frames, frame, alternative.definition)
        }
    }
}
