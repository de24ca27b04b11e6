//! SEQUENCE OF.

ghost use Rattle.std.specs.Prelude.{ℕ, ◌≡◌, ◌+◌, ◌*◌, ◌<◌, IfOk};
ghost use Rattle.aper_defs.specs.Bounds.{IsSizeBounded};
ghost use Rattle.aper_defs.specs.Trees.{Tree, sequence_of};
ghost use Rattle.aper_defs.specs.Asking.{asks};
ghost use Rattle.aper_values.specs.Views.{view};
ghost use Rattle.aper_frames.specs.Frames.{members_left, member_after, path_of, next_of};
ghost use Rattle.aper_frames.specs.Weights.{list_weight, members_weight, frames_weight};
ghost use Rattle.aper_stream.specs.resuming.Turns.{left, Resumes, Keeps};
ghost use Rattle.aper_stream.specs.resuming.Weights.{weight_left, Lightens};

use crate::resuming::pending::Pending;
use aper_cursor::asking::ask_count;
use aper_cursor::{Cursor, Unanswered};
use aper_frames::{Frame, Members, Stack};
use aper_values::make::listed;
use aper_values::value::Value;
use asn1_syntax::types::{Size, TypeId};
use gnb_types::items::Memory;
use std::alloc::Global;

pub fn begin_list<'m>(
    alloc: Global,
    cursor: &mut Cursor,
    frames: &mut Stack<'m>,
    size: Option<Size>,
    element: TypeId,
) -> Result<Pending<'m>, Unanswered>
    requires { IsSizeBounded size }
    ensures asked { Resumes (λ of. asks (path_of frames.old) (sequence_of size (of element.number)) (next_of of frames.old)) cursor.old cursor.new frames.new result }
    ensures lighter { Lightens (λ w. 2 * (list_weight w 65535 element + frames_weight w frames.old)) frames.new result }
    ensures kept { Keeps frames.old frames.new result }
{
    let left = ask_count(cursor, size)?;
    let members = Members {
        element,
        left,
        made: Vec::new(alloc),
    };
    Ok(next_member(frames, members)?)
}

/// After a member.
pub fn after_member<'m>(
    frames: &mut Stack<'m>,
    members: Members,
    value: Value,
) -> Result<Pending<'m>, Memory>
    ensures asked { IfOk result (λ next. (of : ℕ → Tree) → member_after of members (path_of frames.old) (next_of of frames.old) (view value) ≡ left of next frames.new) }
    ensures lighter { Lightens (λ w. 2 * (members_weight w members + frames_weight w frames.old)) frames.new result }
{
    let mut members = members;
    members.made.push(value)?;
    next_member(frames, members)
}

/// The next member, or the list where none is left.
fn next_member<'m>(frames: &mut Stack<'m>, members: Members) -> Result<Pending<'m>, Memory>
    ensures asked { IfOk result (λ next. (of : ℕ → Tree) → members_left of members (path_of frames.old) (next_of of frames.old) ≡ left of next frames.new) }
    ensures lighter { Lightens (λ w. 2 * (members_weight w members + frames_weight w frames.old)) frames.new result }
{
    if members.left == 0 {
        return Ok(Pending::Made(listed(members.made)));
    }
    let mut members = members;
    members.left -= 1;
    let element = members.element;
    frames.push(Frame::Member(members))?;
    Ok(Pending::Read(element))
}
