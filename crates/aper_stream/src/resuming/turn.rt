//! The turns of a decoder.

ghost use Rattle.std.specs.Prelude.{ℕ, ◌≡◌, ◌+◌, ◌*◌, ◌<◌, length, IfOk};
ghost use Rattle.asn1_syntax.specs.declared.assignments.assignment.Syntax.{Syntax};
ghost use Rattle.aper_defs.specs.Trees.{Tree};
ghost use Rattle.aper_values.specs.types.Types.{tree};
ghost use Rattle.aper_values.specs.Views.{view};
ghost use Rattle.aper_frames.specs.Frames.{path_of, next_of, after};
ghost use Rattle.aper_frames.specs.Weights.{frame_weight, frames_weight};
ghost use Rattle.aper_decode.specs.Heavy.{weighed};
ghost use Rattle.aper_stream.specs.declared.resuming.pending.Pending.TheVariants as pendings;
ghost use Rattle.aper_stream.specs.resuming.Turns.{left, IsPendingInside, TurnsBy, TakesTurn, Lessens};
ghost use Rattle.aper_stream.specs.resuming.Weights.{weight_left, Lightens};

use crate::resuming::begin::begin;
use crate::resuming::container::{after_element, take_head};
use crate::resuming::list::after_member;
use crate::resuming::open::{take_end, take_inside, take_length, take_octets};
use crate::resuming::pending::{Pending, Stopped, handed_back};
use crate::resuming::sequence::{after_addition, after_component, take_marks};
use aper_cursor::Cursor;
use aper_frames::{Frame, Stack};
use aper_values::make::{chosen, message};
use aper_values::types::form_of;
use aper_values::value::Value;
use asn1_module::{Module, TypeId};
use gnb_types::items::Memory;
use std::alloc::Global;

/// What a turn leads to: another one, or the whole value.
#[derive(Drop)]
pub enum Progress<'m> {
    Next(Pending<'m>),
    Whole(Value),
}

/// Takes a turn.
pub fn take_turn<'m>(
    alloc: Global,
    m: &'m Module,
    cursor: &mut Cursor,
    frames: &mut Stack<'m>,
    pending: Pending<'m>,
) -> Result<Progress<'m>, Stopped<'m>>
    requires { IsPendingInside (length m.now.nodes) pending }
    ensures asked { TakesTurn (tree m.now) pending.entry cursor.old cursor.new frames.old frames.new result }
    ensures lighter { Lessens m.now pending.entry frames.old frames.new result }
{
    match pending {
        Pending::Read(id) => Ok(Progress::Next(read(alloc, m, cursor, frames, id)?)),
        Pending::Made(value) => Ok(Progress::Next(go_on(alloc, frames, value)?)),
        Pending::Marks(components) => Ok(Progress::Next(take_marks(
            alloc, cursor, frames, components,
        )?)),
        Pending::Head(elements) => Ok(Progress::Next(take_head(cursor, frames, elements)?)),
        Pending::Inside { frame, definition } => Ok(Progress::Next(take_inside(
            cursor, frames, frame, definition,
        )?)),
        Pending::Unknown(frame) => Ok(Progress::Next(take_length(cursor, frames, frame)?)),
        Pending::Octets(count) => Ok(Progress::Next(take_octets(alloc, cursor, frames, count)?)),
        Pending::Closing(value) => Ok(Progress::Next(take_end(cursor, frames, value)?)),
        Pending::Ending(value) => take_ending(cursor, frames, value),
    }
}

/// Begins a value of a type.
fn read<'m>(
    alloc: Global,
    m: &'m Module,
    cursor: &mut Cursor,
    frames: &mut Stack<'m>,
    id: TypeId,
) -> Result<Pending<'m>, Stopped<'m>>
    requires { id.number < length m.now.nodes }
    ensures asked { TurnsBy (tree m.now) (pendings.Read id) cursor.old cursor.new frames.old frames.new result }
    ensures lighter { IfOk result (λ next. (other : ℕ) → weight_left (weighed m.now other) next frames.new < weight_left (weighed m.now other) (pendings.Read id) frames.old) }
{
    match begin(alloc, cursor, frames, form_of(m, id)) {
        Ok(pending) => Ok(pending),
        Err(error) => Err(handed_back(error, Pending::Read(id))),
    }
}

/// The end of the whole value.
fn take_ending<'m>(
    cursor: &mut Cursor,
    frames: &Stack<'m>,
    value: Value,
) -> Result<Progress<'m>, Stopped<'m>>
    ensures asked { (of : ℕ → Tree) → TakesTurn of (pendings.Ending value) cursor.old cursor.new frames.now frames.now result }
    ensures lighter { (m : Syntax) → Lessens m (pendings.Ending value) frames.now frames.now result }
{
    match cursor.closing() {
        Err(reason) => Err(Stopped::Wrong(reason, Pending::Ending(value))),
        Ok(_) => Ok(Progress::Whole(value)),
    }
}

/// Goes on after a value, with the innermost of those around it.
fn go_on<'m>(alloc: Global, frames: &mut Stack<'m>, value: Value) -> Result<Pending<'m>, Memory>
    ensures asked { IfOk result (λ next. (of : ℕ → Tree) → next_of of frames.old (view value) ≡ left of next frames.new) }
    ensures lighter { Lightens (λ w. 1 + 2 * frames_weight w frames.old) frames.new result }
{
    match frames.pop() {
        None => Ok(Pending::Ending(value)),
        Some(frame) => Ok(after(alloc, frames, frame, value)?),
    }
}

/// Goes on after a value inside this frame.
fn after<'m>(
    alloc: Global,
    frames: &mut Stack<'m>,
    frame: Frame<'m>,
    value: Value,
) -> Result<Pending<'m>, Memory>
    ensures asked { IfOk result (λ next. (of : ℕ → Tree) → after of frame.entry (path_of frames.old) (next_of of frames.old) (view value) ≡ left of next frames.new) }
    ensures lighter { Lightens (λ w. 1 + 2 * (frame_weight w frame.entry + frames_weight w frames.old)) frames.new result }
{
    match frame {
        Frame::Component(frame) => Ok(after_component(frames, frame.others, value)?),
        Frame::Addition(frame) => Ok(after_addition(frame.others, value)?),
        Frame::Alternative(frame) => Ok(Pending::Made(chosen(alloc, frame.index, value)?)),
        Frame::Member(members) => Ok(after_member(frames, members, value)?),
        Frame::Element(frame) => Ok(after_element(frame, value)?),
        Frame::Body(frame) => Ok(Pending::Made(message(
            alloc,
            frame.outcome,
            frame.code,
            frame.criticality,
            value,
        )?)),
        Frame::Open => Ok(Pending::Closing(value)),
    }
}
