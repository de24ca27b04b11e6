//! Steps.

ghost use Rattle.std.specs.Prelude.{◌≡◌, ℕ, ◌==◌, List, map, IfOk, length};
ghost use Rattle.asn1_syntax.specs.declared.assignments.assignment.Syntax.{Syntax};
ghost use Rattle.aper_defs.specs.Trees.{Tree};
ghost use Rattle.aper_defs.specs.Reading.{Cursor as Place};
ghost use Rattle.aper_cursor.specs.strings.Contents.{content_of};
ghost use Rattle.aper_values.specs.types.Types.{tree};
ghost use Rattle.aper_values.specs.Views.{view};
ghost use Rattle.aper_frames.specs.declared.frame.Frame.{Frame};
ghost use Rattle.aper_decode.specs.Forms.{IsFormBounded};
ghost use Rattle.aper_stream.specs.resuming.Turns.{left, IsPendingInside};
ghost use Rattle.aper_stream.specs.declared.string_turns.field.StringField.TheVariants as fields;
ghost use Rattle.aper_stream.specs.declared.steps.step.Next.TheVariants as comes;
ghost use Rattle.aper_stream.specs.steps.Steps.{string_value, next_left, IsPendingLight, IsNextLight, IsNextBounded, IsStringForm, IsStringOf, TakesStep, OnNext, IsProgressInside, IsOnward, halted_by};

use crate::resuming::{Pending, Progress, Stopped, take_turn};
use crate::string_turns::{StringField, StringLeft};
use aper_cursor::strings::Content;
use aper_cursor::{Cursor, Unanswered};
use aper_defs::Reason;
use aper_frames::Stack;
use aper_values::make;
use aper_values::types::{Form, form_of};
use aper_values::value::Value;
use asn1_module::{Module, Size, TypeId};
use gnb_types::bits::Bits;
use gnb_types::items::Memory;
use gnb_types::octets::Octets;
use std::alloc::{AllocError, Global};

/// What comes next of a value.
#[derive(Drop)]
pub enum Next<'m> {
    Turn(Pending<'m>),
    /// A string of which some units are there.
    String(StringLeft),
}

/// What a step leads to: another one, or the whole value.
#[derive(Drop)]
pub enum Onward<'m> {
    Next(Next<'m>),
    Whole(Value),
}

/// Why a step isn't taken.
#[derive(Drop)]
pub enum Halted<'m> {
    /// The octets are wrong, or end here. What comes next is handed back.
    Wrong(Reason, Next<'m>),
    Memory,
}

/// Takes a step.
pub fn take_step<'m>(
    alloc: Global,
    m: &'m Module,
    cursor: &mut Cursor,
    frames: &mut Stack<'m>,
    next: Next<'m>,
) -> Result<Onward<'m>, Halted<'m>>
    requires light { IsNextLight m.now next frames.old }
    requires bounded { IsNextBounded cursor.old.place next }
    ensures asked { TakesStep (tree m.now) next.entry cursor.old cursor.new frames.old frames.new result }
    ensures light { OnNext result (λ next. IsNextLight m.now next frames.new) }
    ensures bounded { OnNext result (IsNextBounded cursor.new.place) }
{
    match next {
        Next::Turn(pending) => turn(alloc, m, cursor, frames, pending),
        Next::String(string) => more_of_string(alloc, cursor, string),
    }
}

/// Takes a turn.
fn turn<'m>(
    alloc: Global,
    m: &'m Module,
    cursor: &mut Cursor,
    frames: &mut Stack<'m>,
    pending: Pending<'m>,
) -> Result<Onward<'m>, Halted<'m>>
    requires light { IsPendingLight m.now pending frames.old }
    ensures asked { TakesStep (tree m.now) (comes.Turn pending.entry) cursor.old cursor.new frames.old frames.new result }
    ensures light { OnNext result (λ next. IsNextLight m.now next frames.new) }
    ensures bounded { OnNext result (IsNextBounded cursor.new.place) }
{
    match take_turn(alloc, m, cursor, frames, pending) {
        Ok(progress) => Ok(going_on(alloc, m, progress)),
        Err(stopped) => Err(halted_by(stopped)),
    }
}

/// What a turn leads to.
fn going_on<'m>(alloc: Global, m: &Module, progress: Progress<'m>) -> Onward<'m>
    requires { IsProgressInside (length m.now.nodes) progress }
    ensures { IsOnward m.now progress.entry result }
{
    match progress {
        Progress::Next(pending) => Onward::Next(begun(alloc, m, pending)),
        Progress::Whole(value) => Onward::Whole(value),
    }
}

/// Why a turn wasn't taken.
fn halted_by<'m>(stopped: Stopped<'m>) -> Halted<'m>
    ensures { result ≡ halted_by stopped.entry }
{
    match stopped {
        Stopped::Wrong(reason, pending) => Halted::Wrong(reason, Next::Turn(pending)),
        Stopped::Memory => Halted::Memory,
    }
}

/// What comes next, where a string begins too.
pub fn begun<'m>(alloc: Global, m: &Module, pending: Pending<'m>) -> Next<'m>
    requires { IsPendingInside (length m.now.nodes) pending }
    ensures same { (fs : List Frame) → next_left (tree m.now) result fs ≡ left (tree m.now) pending.entry fs }
    ensures light { (fs : List Frame) → IsPendingLight m.now pending.entry fs → IsNextLight m.now result fs }
    ensures bounded { (place : ℕ) → IsNextBounded place result }
{
    match string_of(m, &pending) {
        None => Next::Turn(pending),
        Some(string) => Next::String(StringLeft::new(alloc, string.0, string.1)),
    }
}

/// The string that is to be read next, if it is one.
fn string_of(m: &Module, pending: &Pending) -> Option<(Content, Option<Size>)>
    requires { IsPendingInside (length m.now.nodes) pending.now }
    ensures { IsStringOf (tree m.now) pending.now result }
{
    match pending {
        Pending::Read(id) => string_form(form_of(m, *id)),
        _ => None,
    }
}

/// A string of this form, if it is one.
fn string_form(form: Form) -> Option<(Content, Option<Size>)>
    requires { IsFormBounded form }
    ensures { IsStringForm form.entry result }
{
    match form {
        Form::BitString(size) => Some((Content::Bits, size)),
        Form::OctetString(size) => Some((Content::Octets, size)),
        Form::PrintableString(size) => Some((Content::Characters, size)),
        _ => None,
    }
}

/// More of a string, or its value.
fn more_of_string<'m>(
    alloc: Global,
    cursor: &mut Cursor,
    string: StringLeft,
) -> Result<Onward<'m>, Halted<'m>>
    requires { IsNextBounded cursor.old.place (comes.String string) }
    ensures asked { (of : ℕ → Tree) (fs : List Frame) → TakesStep of (comes.String string) cursor.old cursor.new fs fs result }
    ensures light { (m : Syntax) (fs : List Frame) → IsNextLight m (comes.String string) fs → OnNext result (λ next. IsNextLight m next fs) }
    ensures bounded { OnNext result (IsNextBounded cursor.new.place) }
{
    match string.field {
        StringField::Nothing => made(alloc, string),
        _ => further(alloc, cursor, string),
    }
}

/// The next field of a string.
fn further<'m>(
    alloc: Global,
    cursor: &mut Cursor,
    string: StringLeft,
) -> Result<Onward<'m>, Halted<'m>>
    requires { IsNextBounded cursor.old.place (comes.String string) }
    ensures asked { (of : ℕ → Tree) (fs : List Frame) → TakesStep of (comes.String string) cursor.old cursor.new fs fs result }
    ensures light { (m : Syntax) (fs : List Frame) → IsNextLight m (comes.String string) fs → OnNext result (λ next. IsNextLight m next fs) }
    ensures bounded { OnNext result (IsNextBounded cursor.new.place) }
{
    let mut string = string;
    match string.take_field(alloc, cursor) {
        Ok(()) => Ok(Onward::Next(Next::String(string))),
        Err(Unanswered::Wrong(reason)) => Err(Halted::Wrong(reason, Next::String(string))),
        Err(Unanswered::Memory) => Err(Halted::Memory),
    }
}

/// The value that a whole string is.
fn made<'m>(alloc: Global, string: StringLeft) -> Result<Onward<'m>, Halted<'m>>
    requires { string.field ≡ fields.Nothing }
    ensures asked { (of : ℕ → Tree) (fs : List Frame) (c : Place) → TakesStep of (comes.String string) c c fs fs result }
    ensures light { (m : Syntax) (fs : List Frame) → IsNextLight m (comes.String string) fs → OnNext result (λ next. IsNextLight m next fs) }
    ensures bounded { (place : ℕ) → OnNext result (IsNextBounded place) }
{
    match string_value(alloc, string.content, string.units) {
        Ok(value) => Ok(Onward::Next(Next::Turn(Pending::Made(value)))),
        Err(_) => Err(Halted::Memory),
    }
}

/// Truth values from numbers, 0 or 1.
fn truth_values(alloc: Global, units: &[u8]) -> Result<Vec<bool>, AllocError>
    ensures { IfOk result (λ bits. bits.items ≡ map (λ b. b == 1) units.now) }
{
    units.iter().map(|unit| *unit == 1).collect(alloc)
}

/// A string of these units.
fn string_value(alloc: Global, content: Content, units: Vec<u8>) -> Result<Value, Memory>
    ensures { IfOk result (λ value. view value ≡ string_value (content_of content) units.items) }
{
    match content {
        Content::Bits => {
            let bits = truth_values(alloc, units.as_slice())?;
            Ok(make::bit_string(Bits::from_vec(bits)))
        }
        Content::Octets => Ok(make::octet_string(Octets::from_vec(units))),
        Content::Characters => Ok(make::printable_string(Octets::from_vec(units))),
    }
}
