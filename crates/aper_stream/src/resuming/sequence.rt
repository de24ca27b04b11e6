//! SEQUENCE.

ghost use Rattle.std.specs.Prelude.{ℕ, ◌≡◌, ◌+◌, ◌*◌, ◌<◌, IfOk};
ghost use Rattle.asn1_syntax.specs.types.Members.{additions_of};
ghost use Rattle.aper_defs.specs.Asking.{asks};
ghost use Rattle.aper_defs.specs.Trees.{Tree, sequence};
ghost use Rattle.aper_values.specs.types.Types.{sequence_tree, parts_of};
ghost use Rattle.aper_values.specs.Views.{view};
ghost use Rattle.aper_frames.specs.Frames.{components_left, component_after, additions_left, addition_after, path_of, next_of};
ghost use Rattle.aper_frames.specs.Weights.{sequence_weight, components_weight, additions_weight, frames_weight};
ghost use Rattle.aper_stream.specs.declared.resuming.pending.Pending.TheVariants as pendings;
ghost use Rattle.aper_stream.specs.resuming.Turns.{left, IsLeft, Resumes, Keeps, Turns};
ghost use Rattle.aper_stream.specs.resuming.Weights.{weight_left, pending_weight, Lightens};

use crate::resuming::pending::{Pending, Stopped, handed_back};
use aper_cursor::asking::ask_extension;
use aper_cursor::{Cursor, Unanswered};
use aper_fields::members::rows::named;
use aper_frames::heads::{ask_flags, ask_marks};
use aper_frames::{
    Addition, AdditionFrame, Additions, ComponentFrame, Components, Flags, Frame, Stack,
};
use aper_values::make::components;
use aper_values::value::Value;
use asn1_syntax::types::{Component, Extensible};
use gnb_types::items::Memory;
use std::alloc::Global;

pub fn begin_sequence<'m>(
    alloc: Global,
    cursor: &mut Cursor,
    frames: &mut Stack<'m>,
    members: &'m Extensible<Component>,
) -> Result<Pending<'m>, Unanswered>
    ensures asked { Resumes (λ of. asks (path_of frames.old) (sequence_tree of members.now) (next_of of frames.old)) cursor.old cursor.new frames.new result }
    ensures lighter { Lightens (λ w. 2 * (sequence_weight w members.now.root (additions_of members.now.additions) + frames_weight w frames.old)) frames.new result }
    ensures kept { Keeps frames.old frames.new result }
{
    let extensible = members.additions.is_some();
    let additions = named(&members.additions);
    begin_components(
        alloc,
        cursor,
        frames,
        extensible,
        members.root.as_slice(),
        additions,
    )
}

/// A SEQUENCE of these components and additions.
fn begin_components<'m>(
    alloc: Global,
    cursor: &mut Cursor,
    frames: &mut Stack<'m>,
    extensible: bool,
    root: &'m [Component],
    additions: &'m [Component],
) -> Result<Pending<'m>, Unanswered>
    ensures asked { Resumes (λ of. asks (path_of frames.old) (sequence extensible (parts_of of root.now) (parts_of of additions.now)) (next_of of frames.old))
        cursor.old cursor.new frames.new result }
    ensures lighter { Lightens (λ w. 2 * (sequence_weight w root.now additions.now + frames_weight w frames.old)) frames.new result }
    ensures kept { Keeps frames.old frames.new result }
{
    let extended = ask_extension(cursor, extensible)?;
    let there = ask_flags(alloc, cursor, root)?;
    let components = Components {
        left: root,
        there: Flags::new(there),
        made: Vec::new(alloc),
        additions,
        extended,
    };
    Ok(next_component(frames, components)?)
}

/// After a component.
pub fn after_component<'m>(
    frames: &mut Stack<'m>,
    components: Components<'m>,
    value: Value,
) -> Result<Pending<'m>, Memory>
    ensures asked { IfOk result (λ next. (of : ℕ → Tree) → component_after of components.entry (path_of frames.old) (next_of of frames.old) (view value) ≡ left of next frames.new) }
    ensures lighter { Lightens (λ w. 2 * (components_weight w components.entry + frames_weight w frames.old)) frames.new result }
{
    let mut components = components;
    components.made.push(Some(value))?;
    next_component(frames, components)
}

/// The next component, or the marks of additions after the last one.
fn next_component<'m>(
    frames: &mut Stack<'m>,
    components: Components<'m>,
) -> Result<Pending<'m>, Memory>
    ensures asked { IfOk result (λ next. (of : ℕ → Tree) → components_left of components.entry (path_of frames.old) (next_of of frames.old) ≡ left of next frames.new) }
    ensures lighter { Lightens (λ w. 2 * (components_weight w components.entry + frames_weight w frames.old)) frames.new result }
{
    let mut others = components;
    match others.next()? {
        None => Ok(Pending::Marks(others)),
        Some(component) => {
            let name = component.name.as_slice();
            frames.push(Frame::Component(ComponentFrame { name, others }))?;
            Ok(Pending::Read(component.definition))
        }
    }
}

/// The marks of additions after all components.
pub fn take_marks<'m>(
    alloc: Global,
    cursor: &mut Cursor,
    frames: &Stack<'m>,
    components: Components<'m>,
) -> Result<Pending<'m>, Stopped<'m>>
    ensures asked { Turns (pendings.Marks components.entry) cursor.old cursor.new frames.now frames.now result }
    ensures lighter { Lightens (λ w. weight_left w (pendings.Marks components.entry) frames.now) frames.now result }
{
    match ask_marks(alloc, cursor, components.extended) {
        Err(error) => Err(handed_back(error, Pending::Marks(components))),
        Ok(there) => {
            let additions = Additions {
                left: components.additions,
                there: Flags::new(there),
                made: Vec::new(alloc),
                root: components.made,
            };
            Ok(next_addition(additions)?)
        }
    }
}

/// After an addition.
pub fn after_addition<'m>(additions: Additions<'m>, value: Value) -> Result<Pending<'m>, Memory>
    ensures asked { IfOk result (IsLeft (λ fs of. addition_after of additions.entry (path_of fs) (next_of of fs) (view value))) }
    ensures lighter { IfOk result (λ next. (w : ℕ → ℕ) → pending_weight w next < 2 * additions_weight w additions.entry) }
{
    let mut additions = additions;
    additions.made.push(Some(value))?;
    next_addition(additions)
}

/// The next addition, or the value where none is left.
fn next_addition<'m>(additions: Additions<'m>) -> Result<Pending<'m>, Memory>
    ensures asked { IfOk result (IsLeft (λ fs of. additions_left of additions.entry (path_of fs) (next_of of fs))) }
    ensures lighter { IfOk result (λ next. (w : ℕ → ℕ) → pending_weight w next < 2 * additions_weight w additions.entry) }
{
    let mut others = additions;
    match others.next()? {
        Addition::End => Ok(Pending::Made(components(others.root, others.made))),
        Addition::Unnamed => Ok(Pending::Unknown(Frame::Addition(AdditionFrame {
            name: None,
            others,
        }))),
        Addition::Named(component) => {
            let name = Some(component.name.as_slice());
            Ok(Pending::Inside {
                frame: Frame::Addition(AdditionFrame { name, others }),
                definition: component.definition,
            })
        }
    }
}
