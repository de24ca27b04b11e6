//! SEQUENCE.

ghost use Rattle.std.specs.Prelude.{◌+◌, OnOk};
ghost use Rattle.asn1_syntax.specs.types.Members.{additions_of};
ghost use Rattle.aper_defs.specs.Asking.{asks};
ghost use Rattle.aper_defs.specs.Trees.{sequence};
ghost use Rattle.aper_values.specs.types.Types.{sequence_tree, parts_of, tree};
ghost use Rattle.aper_values.specs.Views.{view};
ghost use Rattle.aper_frames.specs.Frames.{components_left, component_after, additions_left, addition_after, path_of, next_of, after_components, options_before};
ghost use Rattle.aper_frames.specs.Steps.{Steps};
ghost use Rattle.aper_frames.specs.Weights.{sequence_weight, components_weight, additions_weight, frames_weight, Lighter};
ghost use Rattle.aper_decode.specs.InModule.{IsOfModule, StepsIn, LighterIn, IsAround};
ghost use Rattle.aper_defs.specs.Values as seen;

use crate::container::{go_inside, read_container};
use crate::list::{read_list, refuse, simple_list};
use crate::simple::{Itself, is_simple, put_part};
use aper_cursor::asking::ask_extension;
use aper_cursor::{Cursor, Unanswered};
use aper_fields::members::rows::named;
use aper_frames::heads::{ask_flags, ask_marks};
use aper_frames::{
    Addition, AdditionFrame, Additions, ComponentFrame, Components, Flags, Frame, Stack, Turn,
    ask_inside, ask_unknown,
};
use aper_values::make;
use aper_values::types::{Form, form_of};
use aper_values::value::Value;
use asn1_module::Module;
use asn1_syntax::types::{Component, Extensible};
use gnb_types::items::Memory;
use std::alloc::Global;

/// The components of a SEQUENCE, as far as they hold no other values.
pub fn begin_sequence<'m>(
    alloc: Global,
    m: &'m Module,
    cursor: &mut Cursor,
    frames: &mut Stack<'m>,
    members: &'m Extensible<Component>,
) -> Result<Turn, Unanswered>
    requires { IsOfModule m.now (λ w. sequence_weight w members.now.root (additions_of members.now.additions)) }
    ensures asked { StepsIn (tree m.now) (asks (path_of frames.old) (sequence_tree (tree m.now) members.now) (next_of (tree m.now) frames.old))
        cursor.old cursor.new frames.new result }
    ensures lighter { LighterIn m.now (λ w. sequence_weight w members.now.root (additions_of members.now.additions) + frames_weight w frames.old) frames.new result }
{
    let extensible = members.additions.is_some();
    let additions = named(&members.additions);
    begin_components(
        alloc,
        m,
        cursor,
        frames,
        extensible,
        members.root.as_slice(),
        additions,
    )
}

/// A SEQUENCE of these components and additions.
fn begin_components<'m>(
    alloc: Global,
    m: &'m Module,
    cursor: &mut Cursor,
    frames: &mut Stack<'m>,
    extensible: bool,
    root: &'m [Component],
    additions: &'m [Component],
) -> Result<Turn, Unanswered>
    requires { IsOfModule m.now (λ w. sequence_weight w root.now additions.now) }
    ensures asked { StepsIn (tree m.now) (asks (path_of frames.old) (sequence extensible (parts_of (tree m.now) root.now) (parts_of (tree m.now) additions.now))
        (next_of (tree m.now) frames.old)) cursor.old cursor.new frames.new result }
    ensures lighter { LighterIn m.now (λ w. sequence_weight w root.now additions.now + frames_weight w frames.old) frames.new result }
{
    let extended = ask_extension(cursor, extensible)?;
    let there = ask_flags(alloc, cursor, root)?;
    let made = Vec::with_capacity(alloc, root.len())?;
    let components = Components {
        left: root,
        there: Flags::new(there),
        made,
        additions,
        extended,
    };
    read_components(alloc, m, cursor, frames, components)
}

/// After a component: those that hold no other values are read at once.
pub fn after_component<'m>(
    alloc: Global,
    m: &'m Module,
    cursor: &mut Cursor,
    frames: &mut Stack<'m>,
    components: Components<'m>,
    value: Value,
) -> Result<Turn, Unanswered>
    requires { IsOfModule m.now (λ w. components_weight w components) }
    ensures asked { StepsIn (tree m.now) (component_after (tree m.now) components.entry (path_of frames.old) (next_of (tree m.now) frames.old) (view value))
        cursor.old cursor.new frames.new result }
    ensures lighter { LighterIn m.now (λ w. components_weight w components.entry + frames_weight w frames.old) frames.new result }
{
    let mut components = components;
    components.made.push(Some(value))?;
    read_components(alloc, m, cursor, frames, components)
}

/// The components that are left, as far as they hold no other values.
fn read_components<'m>(
    alloc: Global,
    m: &'m Module,
    cursor: &mut Cursor,
    frames: &mut Stack<'m>,
    components: Components<'m>,
) -> Result<Turn, Unanswered>
    requires { IsOfModule m.now (λ w. components_weight w components) }
    ensures asked { StepsIn (tree m.now) (components_left (tree m.now) components.entry (path_of frames.old) (next_of (tree m.now) frames.old))
        cursor.old cursor.new frames.new result }
    ensures lighter { LighterIn m.now (λ w. components_weight w components.entry + frames_weight w frames.old) frames.new result }
{
    let mut others = components;
    while let Some(component) = others.next()? {
        let form = form_of(m, component.definition);
        if is_simple(form) {
            if let Err(error) = put_part(alloc, cursor, form, &Itself, &mut others.made) {
                push_component(frames, component, others)?;
                return Err(error);
            }
        } else if let Some(list) = simple_list(m, form) {
            match read_list(alloc, cursor, list) {
                Ok(value) => others.made.push(Some(value))?,
                Err(refusal) => {
                    push_component(frames, component, others)?;
                    return Err(refuse(frames, refusal));
                }
            }
        } else if let Form::Container(rows) = form {
            match read_container(alloc, m, cursor, rows) {
                Ok(value) => others.made.push(Some(value))?,
                Err(halt) => {
                    push_component(frames, component, others)?;
                    return go_inside(cursor, frames, halt);
                }
            }
        } else {
            push_component(frames, component, others)?;
            return Ok(Turn::Read(component.definition));
        }
    }
    begin_additions(alloc, cursor, frames, others)
}

/// A component is read next, and the others after it.
fn push_component<'m>(
    frames: &mut Stack<'m>,
    component: &'m Component,
    others: Components<'m>,
) -> Result<(), Memory>
    ensures { OnOk result (IsAround component.now others.entry frames.old frames.new) }
{
    let name = component.name.as_slice();
    frames.push(Frame::Component(ComponentFrame { name, others }))?;
    Ok(())
}

/// The additions after all components.
fn begin_additions<'m>(
    alloc: Global,
    cursor: &mut Cursor,
    frames: &mut Stack<'m>,
    components: Components<'m>,
) -> Result<Turn, Unanswered>
    ensures asked { Steps (λ of. options_before components.entry.made.items (after_components of components.entry (path_of frames.old) (next_of of frames.old)) seen.no_options) cursor.old cursor.new frames.new result }
    ensures lighter { Lighter (λ w. components_weight w components.entry + frames_weight w frames.old) frames.new result }
{
    if !components.extended {
        return Ok(Turn::Made(make::components(components.made, Vec::new(alloc))));
    }
    let there = ask_marks(alloc, cursor, true)?;
    let additions = Additions {
        left: components.additions,
        there: Flags::new(there),
        made: Vec::new(alloc),
        root: components.made,
    };
    next_addition(alloc, cursor, frames, additions)
}

/// After an addition.
pub fn after_addition<'m>(
    alloc: Global,
    cursor: &mut Cursor,
    frames: &mut Stack<'m>,
    additions: Additions<'m>,
    value: Value,
) -> Result<Turn, Unanswered>
    ensures asked { Steps (λ of. addition_after of additions.entry (path_of frames.old) (next_of of frames.old) (view value)) cursor.old cursor.new frames.new result }
    ensures lighter { Lighter (λ w. additions_weight w additions.entry + frames_weight w frames.old) frames.new result }
{
    let mut additions = additions;
    additions.made.push(Some(value))?;
    next_addition(alloc, cursor, frames, additions)
}

/// The next addition, or the value where none is left.
fn next_addition<'m>(
    alloc: Global,
    cursor: &mut Cursor,
    frames: &mut Stack<'m>,
    additions: Additions<'m>,
) -> Result<Turn, Unanswered>
    ensures asked { Steps (λ of. additions_left of additions.entry (path_of frames.old) (next_of of frames.old)) cursor.old cursor.new frames.new result }
    ensures lighter { Lighter (λ w. additions_weight w additions.entry + frames_weight w frames.old) frames.new result }
{
    let mut others = additions;
    match others.next()? {
        Addition::End => Ok(Turn::Made(make::components(others.root, others.made))),
        Addition::Unnamed => {
            let frame = Frame::Addition(AdditionFrame { name: None, others });
            ask_unknown(alloc, cursor, frames, frame)
        }
        Addition::Named(component) => {
            let name = Some(component.name.as_slice());
            let frame = Frame::Addition(AdditionFrame { name, others });
            ask_inside(cursor, frames, frame, component.definition)
        }
    }
}
