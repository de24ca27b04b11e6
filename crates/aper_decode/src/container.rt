//! ProtocolIE-Container.

ghost use Rattle.std.specs.Prelude.{ℕ, ◌≡◌, ◌+◌, true, length, Err};
ghost use Rattle.aper_defs.specs.Trees.{Tree, container};
ghost use Rattle.aper_defs.specs.Asking.{asks};
ghost use Rattle.aper_defs.specs.Fields.{Path, closing, end};
ghost use Rattle.aper_defs.specs.Questions.{Prog, ask};
ghost use Rattle.aper_defs.specs.Reading.{Cursor as Place};
ghost use Rattle.aper_defs.specs.Values as seen;
ghost use Rattle.asn1_defs.specs.Links.{OptionBelow};
ghost use Rattle.aper_values.specs.types.Types.{rows_of, tree};
ghost use Rattle.aper_values.specs.types.Forms.{form_tree};
ghost use Rattle.aper_values.specs.Views.{view};
ghost use Rattle.aper_frames.specs.Frames.{elements_left, element_after, path_of, next_of};
ghost use Rattle.aper_frames.specs.Weights.{container_weight, elements_weight, frames_weight, Lighter};
ghost use Rattle.aper_frames.specs.heads.Raw.{GoesOnRaw};
ghost use Rattle.aper_frames.specs.simple.Reads.{Reads};
ghost use Rattle.aper_decode.specs.Forms.{IsFormBounded, is_simple};
ghost use Rattle.aper_decode.specs.InModule.{IsOfModule, StepsIn};
ghost use Rattle.aper_decode.specs.Elements.{IsBodyOf, IsWhole, IsReadable, ReadsOpen, ReadsBody, PutsElement, ReadsContainer, LeavesLess, refusal};

use crate::simple::{Keep, is_simple, put_part};
use aper_cursor::asking::{ask_closing, ask_opening};
use aper_cursor::{Cursor, Unanswered};
use aper_defs::Reason;
use aper_fields::members::rows::row_type;
use aper_frames::heads::{
    ElementHead, RawError, ask_element_count, ask_element_head, ask_raw, rows_left,
};
use aper_frames::{ElementFrame, Elements, Frame, Stack, Turn, ask_inside};
use aper_values::make;
use aper_values::types::{Form, form_of};
use aper_values::value::{Ie, Ies, Value};
use asn1_module::{Module, TypeId};
use asn1_syntax::assignments::IeRow;
use std::alloc::Global;

/// How the body of an information element is read.
#[derive(Clone, Copy)]
enum Body<'m> {
    /// At once: a value of a type of this form, which holds no others, or the octets of what isn't known.
    Whole(Option<Form<'m>>),
    /// Inside a frame: a value of this type, which may hold others.
    Inside(TypeId),
}

/// Why a container isn't read without a frame.
#[derive(Drop)]
pub enum Halt<'m> {
    /// The open type of an element comes next, whose body is of this type and may hold others.
    Element(ElementFrame<'m>, TypeId),
    /// The body of an element is wrong.
    Wrong(ElementFrame<'m>, Reason),
    /// What isn't in the body of an element is wrong, or memory ran out.
    Error(Unanswered),
}

impl<'m> From<Reason> for Halt<'m> {
    ghost use Rattle.std.specs.Prelude.{◌≡◌};
    ghost use Rattle.aper_cursor.specs.declared.error.Unanswered.TheVariants.{Wrong as IsWrong};
    ghost use Rattle.aper_decode.specs.declared.container.Halt.TheVariants as halts;

    ghost from_gives = { λ reason halt. halt ≡ halts.Error (IsWrong reason) };

    fn from(reason: Reason) -> Halt<'m> {
        Halt::Error(Unanswered::Wrong(reason))
    }
}

/// Begins a container of information elements of a set with these rows (ITU-T X.691, as a SEQUENCE OF; 3GPP TS 38.413, 9.4).
pub fn begin_container<'m>(
    alloc: Global,
    m: &'m Module,
    cursor: &mut Cursor,
    frames: &mut Stack<'m>,
    rows: &'m [IeRow],
) -> Result<Turn, Unanswered>
    requires { IsOfModule m.now (λ w. container_weight w 65535 rows.now) }
    ensures asked { StepsIn (tree m.now) (asks (path_of frames.old) (container (rows_of (tree m.now) rows.now)) (next_of (tree m.now) frames.old))
        cursor.old cursor.new frames.new result }
    ensures lighter { Lighter (λ w. container_weight w 65535 rows.now + frames_weight w frames.old) frames.new result }
{
    match read_container(alloc, m, cursor, rows) {
        Ok(value) => Ok(Turn::Made(value)),
        Err(halt) => go_inside(cursor, frames, halt),
    }
}

/// After an information element, whose id and criticality are kept as they were read.
pub fn after_element<'m>(
    alloc: Global,
    m: &'m Module,
    cursor: &mut Cursor,
    frames: &mut Stack<'m>,
    frame: ElementFrame<'m>,
    value: Value,
) -> Result<Turn, Unanswered>
    requires { IsOfModule m.now (λ w. elements_weight w frame.others) }
    ensures asked { StepsIn (tree m.now) (element_after (tree m.now) frame.entry.others frame.entry.head.id frame.entry.head.criticality (path_of frames.old) (next_of (tree m.now) frames.old) (view value))
        cursor.old cursor.new frames.new result }
    ensures lighter { Lighter (λ w. elements_weight w frame.entry.others + frames_weight w frames.old) frames.new result }
{
    let ElementFrame { head, mut others } = frame;
    others.made.push(head.keep(value))?;
    match read_elements(alloc, m, cursor, others) {
        Ok(value) => Ok(Turn::Made(value)),
        Err(halt) => go_inside(cursor, frames, halt),
    }
}

/// A container of information elements of a set with these rows, as far as they hold no other values.
#[inline(always)]
pub fn read_container<'m>(
    alloc: Global,
    m: &'m Module,
    cursor: &mut Cursor,
    rows: &'m [IeRow],
) -> Result<Value, Halt<'m>>
    requires { IsOfModule m.now (λ w. container_weight w 65535 rows.now) }
    ensures asked { ReadsContainer (λ p. asks p (container (rows_of (tree m.now) rows.now))) (tree m.now) cursor.old cursor.new result }
    ensures lighter { LeavesLess (λ w. container_weight w 65535 rows.now) result }
{
    let left = ask_element_count(cursor, rows)?;
    let elements = Elements {
        rows,
        possible: rows,
        left,
        made: Vec::new(alloc),
    };
    read_elements(alloc, m, cursor, elements)
}

/// The information elements that are left, as far as they hold no other values.
fn read_elements<'m>(
    alloc: Global,
    m: &'m Module,
    cursor: &mut Cursor,
    elements: Elements<'m>,
) -> Result<Value, Halt<'m>>
    requires { IsOfModule m.now (λ w. elements_weight w elements) }
    ensures asked { ReadsContainer (elements_left (tree m.now) elements.entry) (tree m.now) cursor.old cursor.new result }
    ensures lighter { LeavesLess (λ w. elements_weight w elements.entry) result }
{
    let mut others = elements;
    while others.left > 0 {
        others.left -= 1;
        let head = ask_element_head(cursor, others.rows, others.possible, others.left)?;
        others.possible = rows_left(others.rows, others.possible, head.id);
        match body_of(m, row_type(head.id, others.rows)) {
            Body::Inside(id) => return Err(Halt::Element(ElementFrame { head, others }, id)),
            Body::Whole(form) => {
                if let Err(error) = put_body(alloc, cursor, form, &head, &mut others.made) {
                    return Err(refuse(ElementFrame { head, others }, error));
                }
            }
        }
    }
    Ok(make::elements(others.made))
}

/// Goes on where a container inside these frames isn't read.
#[inline(always)]
pub fn go_inside<'m>(
    cursor: &mut Cursor,
    frames: &mut Stack<'m>,
    halt: Halt<'m>,
) -> Result<Turn, Unanswered>
    ensures asked { (question : Path → (seen.Value → Prog) → Prog) (of : ℕ → Tree) (first : Place)
        → ReadsContainer question of first cursor.old (Err halt.entry)
        → StepsIn of (question (path_of frames.old) (next_of of frames.old)) first cursor.new frames.new result }
    ensures lighter { (weight : (ℕ → ℕ) → ℕ) → LeavesLess weight (Err halt.entry)
        → Lighter (λ w. weight w + frames_weight w frames.old) frames.new result }
{
    match halt {
        Halt::Element(frame, id) => ask_inside(cursor, frames, Frame::Element(frame), id),
        Halt::Wrong(frame, reason) => {
            frames.push(Frame::Element(frame))?;
            Err(Unanswered::Wrong(reason))
        }
        Halt::Error(error) => Err(error),
    }
}

/// How the body of an information element of this type, or of one that isn't known, is read.
#[inline(always)]
fn body_of<'m>(m: &'m Module, known: Option<TypeId>) -> Body<'m>
    requires { OptionBelow (length m.now.nodes) known }
    ensures same { IsBodyOf (tree m.now) known result }
    ensures readable { IsReadable result }
{
    match known {
        None => Body::Whole(None),
        Some(id) => {
            let form = form_of(m, id);
            if is_simple(form) {
                Body::Whole(Some(form))
            } else {
                Body::Inside(id)
            }
        }
    }
}

impl Keep<Ie> for ElementHead {
    ghost use Rattle.std.specs.Prelude.{◌≡◌};

    ghost keeps = { λ head value ie. ie ≡ record { id = head.id; criticality = head.criticality; body = value } };

    #[inline(always)]
    fn keep(&self, value: Value) -> Ie {
        Ie {
            id: self.id,
            criticality: self.criticality,
            body: value,
        }
    }
}

/// Puts the element of this head, whose body holds no other values, after those before it.
#[inline(always)]
fn put_body(
    alloc: Global,
    cursor: &mut Cursor,
    form: Option<Form>,
    head: &ElementHead,
    made: &mut Ies,
) -> Result<(), RawError>
    requires { IsWhole form }
    ensures { (of : ℕ → Tree) → PutsElement (ReadsBody of form.entry cursor.old cursor.new) head.now made.old.items made.new.items result }
{
    match form {
        None => put_raw(alloc, cursor, head, made),
        Some(form) => put_open(alloc, cursor, form, head, made),
    }
}

/// Puts an element whose body isn't known.
#[inline(always)]
fn put_raw(
    alloc: Global,
    cursor: &mut Cursor,
    head: &ElementHead,
    made: &mut Ies,
) -> Result<(), RawError>
    ensures { PutsElement (GoesOnRaw cursor.old cursor.new) head.now made.old.items made.new.items result }
{
    let value = ask_raw(alloc, cursor)?;
    match made.push(head.keep(value)) {
        Ok(()) => Ok(()),
        Err(_) => Err(RawError::Memory),
    }
}

/// Puts an element whose body is of this form.
#[inline(always)]
fn put_open(
    alloc: Global,
    cursor: &mut Cursor,
    form: Form,
    head: &ElementHead,
    made: &mut Ies,
) -> Result<(), RawError>
    requires bounded { IsFormBounded form }
    requires simple { is_simple form ≡ true }
    ensures { (of : ℕ → Tree) → PutsElement (ReadsOpen (λ p. asks p (form_tree of form.entry)) cursor.old cursor.new) head.now made.old.items made.new.items result }
{
    match ask_opening(cursor) {
        Ok(_) => Ok(put_contents(alloc, cursor, form, head, made)?),
        Err(Unanswered::Wrong(reason)) => Err(RawError::Length(reason)),
        Err(Unanswered::Memory) => Err(RawError::Memory),
    }
}

/// Puts an element by the contents of its open type, and ends the open type.
#[inline(always)]
fn put_contents(
    alloc: Global,
    cursor: &mut Cursor,
    form: Form,
    head: &ElementHead,
    made: &mut Ies,
) -> Result<(), Unanswered>
    requires bounded { IsFormBounded form }
    requires simple { is_simple form ≡ true }
    ensures { (of : ℕ → Tree) → PutsElement (Reads (λ p K. asks p (form_tree of form.entry) (λ v. ask p closing (λ m. ask p end (λ z. K v)))) cursor.old cursor.new)
        head.now made.old.items made.new.items result }
{
    put_part(alloc, cursor, form, head, made)?;
    ask_closing(cursor)?;
    Ok(())
}

/// Why a container isn't read where the body of the element of this frame isn't. The length before the body is the container's.
fn refuse<'m>(frame: ElementFrame<'m>, error: RawError) -> Halt<'m>
    ensures { result ≡ refusal frame.entry error }
{
    match error {
        RawError::Length(reason) => Halt::Error(Unanswered::Wrong(reason)),
        RawError::Octets(reason) => Halt::Wrong(frame, reason),
        RawError::Memory => Halt::Error(Unanswered::Memory),
    }
}
