//! SEQUENCE OF.

ghost use Rattle.std.specs.Prelude.{ℕ, ◌≡◌, ◌+◌, ◌<◌, true, false, length, IfOk, MatchOption, OnOk};
ghost use Rattle.aper_defs.specs.Bounds.{IsSizeBounded};
ghost use Rattle.aper_defs.specs.Asking.{asks};
ghost use Rattle.aper_defs.specs.Trees.{Tree, sequence_of};
ghost use Rattle.aper_values.specs.Views.{view};
ghost use Rattle.aper_frames.specs.Frames.{members_left, member_after, path_of, next_of};
ghost use Rattle.aper_values.specs.types.Types.{tree};
ghost use Rattle.aper_values.specs.types.Forms.{form_tree, IsFormInside};
ghost use Rattle.aper_frames.specs.Weights.{list_weight, members_weight, frames_weight, Lighter};
ghost use Rattle.aper_decode.specs.Forms.{IsFormBounded, is_simple};
ghost use Rattle.aper_decode.specs.InModule.{IsOfModule, StepsIn, among};
ghost use Rattle.aper_decode.specs.Lists.{StartsList, ReadsList, is_simple_list, IsListOf, IsRefused};

use crate::simple::{Itself, is_simple, put_part};
use aper_cursor::asking::ask_count;
use aper_cursor::{Cursor, Unanswered};
use aper_frames::{Frame, Members, Stack, Turn};
use aper_values::make::listed;
use aper_values::types::{Form, form_of};
use aper_values::value::Value;
use asn1_module::Module;
use asn1_syntax::types::{Size, TypeId};
use gnb_types::items::Memory;
use std::alloc::Global;

/// Room for so many members is made at first: where octets say that more come, they may not hold them.
const MEMBERS_AT_FIRST: u64 = 64;

/// A type of lists whose members hold no other values.
#[derive(Clone, Copy)]
pub struct SimpleList<'m> {
    pub size: Option<Size>,
    pub element: TypeId,
    /// The form of the members' type.
    pub form: Form<'m>,
}

/// Why a list isn't read. Where it is for a member, those after it are left, and those before it are made.
#[derive(Drop)]
pub struct ListRefusal {
    pub member: Option<Members>,
    pub error: Unanswered,
}

/// The lists of a type of this form, where their members hold no other values.
#[inline(always)]
pub fn simple_list<'m>(m: &'m Module, form: Form<'m>) -> Option<SimpleList<'m>>
    requires bounded { IsFormBounded form }
    requires inside { IsFormInside (length m.now.nodes) form }
    ensures { MatchOption result (is_simple_list (form_tree (tree m.now) form.entry) ≡ false) (IsListOf (tree m.now) form.entry) }
{
    match form {
        Form::SequenceOf { size, element } => {
            let form = form_of(m, element);
            if is_simple(form) {
                Some(SimpleList {
                    size,
                    element,
                    form,
                })
            } else {
                None
            }
        }
        _ => None,
    }
}

/// A list whose members hold no other values.
#[inline(always)]
pub fn read_list(alloc: Global, cursor: &mut Cursor, list: SimpleList) -> Result<Value, ListRefusal>
    requires size { IsSizeBounded list.size }
    requires bounded { IsFormBounded list.form }
    requires simple { is_simple list.form ≡ true }
    ensures { (of : ℕ → Tree) → of list.entry.element.number ≡ form_tree of list.entry.form
        → ReadsList (λ p. asks p (sequence_of list.entry.size (of list.entry.element.number))) cursor.old cursor.new result }
{
    match start_list(alloc, cursor, list.size, list.element) {
        Ok(members) => read_all(alloc, cursor, list.form, members),
        Err(error) => Err(ListRefusal {
            member: None,
            error,
        }),
    }
}

/// Why a step isn't taken where a list inside these frames isn't read. A member that is wrong is then inside them too.
pub fn refuse<'m>(frames: &mut Stack<'m>, refusal: ListRefusal) -> Unanswered
    ensures { IsRefused refusal frames.old frames.new result }
{
    let ListRefusal { member, error } = refusal;
    match member {
        None => error,
        Some(members) => match frames.push(Frame::Member(members)) {
            Ok(()) => error,
            Err(_) => Unanswered::Memory,
        },
    }
}

/// How many members come, of which none is read yet.
fn start_list(
    alloc: Global,
    cursor: &mut Cursor,
    size: Option<Size>,
    element: TypeId,
) -> Result<Members, Unanswered>
    requires { IsSizeBounded size }
    ensures asked { (of : ℕ → Tree) → StartsList of size element cursor.old cursor.new result }
    ensures most { IfOk result (λ members. members.left < 65536) }
    ensures same { IfOk result (λ members. members.element ≡ element) }
{
    let left = ask_count(cursor, size)?;
    let made = Vec::with_capacity(alloc, left.min(MEMBERS_AT_FIRST) as usize)?;
    Ok(Members {
        element,
        left,
        made,
    })
}

/// The members that are left, which hold no other values.
fn read_all(
    alloc: Global,
    cursor: &mut Cursor,
    form: Form,
    members: Members,
) -> Result<Value, ListRefusal>
    requires bounded { IsFormBounded form }
    requires simple { is_simple form ≡ true }
    ensures { (of : ℕ → Tree) → of members.element.number ≡ form_tree of form.entry
        → ReadsList (members_left of members) cursor.old cursor.new result }
{
    let mut others = members;
    while others.left > 0 {
        others.left -= 1;
        if let Err(error) = put_part(alloc, cursor, form, &Itself, &mut others.made) {
            return Err(ListRefusal {
                member: Some(others),
                error,
            });
        }
    }
    Ok(listed(others.made))
}

/// The members of a list, as far as they hold no other values.
pub fn begin_list<'m>(
    alloc: Global,
    m: &'m Module,
    cursor: &mut Cursor,
    frames: &mut Stack<'m>,
    size: Option<Size>,
    element: TypeId,
) -> Result<Turn, Unanswered>
    requires size { IsSizeBounded size }
    requires inside { IsOfModule m.now (λ w. list_weight w 65535 element) }
    ensures asked { StepsIn (tree m.now) (asks (path_of frames.old) (sequence_of size (tree m.now element.number)) (next_of (tree m.now) frames.old))
        cursor.old cursor.new frames.new result }
    ensures lighter { Lighter (λ w. list_weight w 65535 element + frames_weight w frames.old) frames.new result }
{
    let members = start_list(alloc, cursor, size, element)?;
    read_members(alloc, m, cursor, frames, members)
}

/// After a member: those that hold no other values are read at once.
pub fn after_member<'m>(
    alloc: Global,
    m: &'m Module,
    cursor: &mut Cursor,
    frames: &mut Stack<'m>,
    members: Members,
    value: Value,
) -> Result<Turn, Unanswered>
    requires { IsOfModule m.now (λ w. members_weight w members) }
    ensures asked { StepsIn (tree m.now) (member_after (tree m.now) members (path_of frames.old) (next_of (tree m.now) frames.old) (view value))
        cursor.old cursor.new frames.new result }
    ensures lighter { Lighter (λ w. members_weight w members + frames_weight w frames.old) frames.new result }
{
    let mut members = members;
    members.made.push(value)?;
    read_members(alloc, m, cursor, frames, members)
}

/// The members that are left, as far as they hold no other values.
fn read_members<'m>(
    alloc: Global,
    m: &'m Module,
    cursor: &mut Cursor,
    frames: &mut Stack<'m>,
    members: Members,
) -> Result<Turn, Unanswered>
    requires { IsOfModule m.now (λ w. members_weight w members) }
    ensures asked { StepsIn (tree m.now) (members_left (tree m.now) members (path_of frames.old) (next_of (tree m.now) frames.old))
        cursor.old cursor.new frames.new result }
    ensures lighter { Lighter (λ w. members_weight w members + frames_weight w frames.old) frames.new result }
{
    if members.left == 0 {
        return Ok(Turn::Made(listed(members.made)));
    }
    let element = members.element;
    let form = form_of(m, element);
    if !is_simple(form) {
        push_member(frames, members)?;
        return Ok(Turn::Read(element));
    }
    match read_all(alloc, cursor, form, members) {
        Ok(value) => Ok(Turn::Made(value)),
        Err(refusal) => Err(refuse(frames, refusal)),
    }
}

/// The next member is read, and the others after it.
fn push_member<'m>(frames: &mut Stack<'m>, members: Members) -> Result<(), Memory>
    requires { 0 < members.left }
    ensures { OnOk result (frames.new ≡ among members frames.old) }
{
    let mut others = members;
    others.left -= 1;
    frames.push(Frame::Member(others))?;
    Ok(())
}
