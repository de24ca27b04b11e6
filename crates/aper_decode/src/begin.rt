//! The beginning of a value.

ghost use Rattle.std.specs.Prelude.{◌+◌};
ghost use Rattle.aper_defs.specs.Asking.{asks};
ghost use Rattle.aper_values.specs.types.Forms.{form_tree};
ghost use Rattle.aper_values.specs.types.Types.{tree};
ghost use Rattle.aper_frames.specs.Frames.{path_of, next_of};
ghost use Rattle.aper_frames.specs.Weights.{frames_weight};
ghost use Rattle.aper_decode.specs.Forms.{IsFormBounded, form_weight};
ghost use Rattle.aper_decode.specs.InModule.{IsOfModule, StepsIn, LighterIn};

use crate::container::begin_container;
use crate::list::begin_list;
use crate::sequence::begin_sequence;
use crate::simple::{is_simple, read_form};
use aper_cursor::{Cursor, Unanswered};
use aper_frames::aper_elements::{begin_choice, begin_message};
use aper_frames::{Stack, Turn};
use aper_values::types::Form;
use asn1_module::Module;
use std::alloc::Global;

/// Begins a value of a type of this form: it is made at once, or one inside it is to be read.
pub fn begin<'m>(
    alloc: Global,
    m: &'m Module,
    cursor: &mut Cursor,
    frames: &mut Stack<'m>,
    form: Form<'m>,
) -> Result<Turn, Unanswered>
    requires bounded { IsFormBounded form }
    requires inside { IsOfModule m.now (λ w. form_weight w form) }
    ensures asked { StepsIn (tree m.now) (asks (path_of frames.old) (form_tree (tree m.now) form.entry) (next_of (tree m.now) frames.old))
        cursor.old cursor.new frames.new result }
    ensures lighter { LighterIn m.now (λ w. form_weight w form.entry + frames_weight w frames.old) frames.new result }
{
    if is_simple(form) {
        return Ok(Turn::Made(read_form(alloc, cursor, form)?));
    }
    match form {
        Form::Boolean => unreachable!(),
        Form::Integer { .. } => unreachable!(),
        Form::Enumerated { .. } => unreachable!(),
        Form::BitString(_) => unreachable!(),
        Form::OctetString(_) => unreachable!(),
        Form::PrintableString(_) => unreachable!(),
        Form::Sequence(members) => begin_sequence(alloc, m, cursor, frames, members),
        Form::Choice(members) => begin_choice(alloc, cursor, frames, members),
        Form::SequenceOf { size, element } => begin_list(alloc, m, cursor, frames, size, element),
        Form::Container(rows) => begin_container(alloc, m, cursor, frames, rows),
        Form::Pdu(rows) => begin_message(alloc, cursor, frames, rows),
    }
}
