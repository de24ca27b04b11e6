//! The beginning of a value.

ghost use Rattle.std.specs.Prelude.{◌+◌, ◌*◌};
ghost use Rattle.aper_defs.specs.Asking.{asks};
ghost use Rattle.aper_values.specs.types.Forms.{form_tree};
ghost use Rattle.aper_frames.specs.Frames.{path_of, next_of};
ghost use Rattle.aper_frames.specs.Weights.{frames_weight};
ghost use Rattle.aper_decode.specs.Forms.{IsFormBounded, form_weight};
ghost use Rattle.aper_stream.specs.resuming.Turns.{Resumes, Keeps};
ghost use Rattle.aper_stream.specs.resuming.Weights.{weight_left, Lightens};

use crate::resuming::choice::begin_choice;
use crate::resuming::container::begin_container;
use crate::resuming::list::begin_list;
use crate::resuming::message::begin_message;
use crate::resuming::pending::Pending;
use crate::resuming::sequence::begin_sequence;
use aper_cursor::{Cursor, Range, Unanswered};
use aper_frames::Stack;
use aper_frames::simple::{
    read_bit_string, read_boolean, read_enumerated, read_integer, read_octet_string,
    read_printable_string,
};
use aper_values::types::Form;
use std::alloc::Global;

/// Begins a value of a type of this form: it is made at once, or one inside it comes next.
pub fn begin<'m>(
    alloc: Global,
    cursor: &mut Cursor,
    frames: &mut Stack<'m>,
    form: Form<'m>,
) -> Result<Pending<'m>, Unanswered>
    requires { IsFormBounded form }
    ensures asked { Resumes (λ of. asks (path_of frames.old) (form_tree of form.entry) (next_of of frames.old)) cursor.old cursor.new frames.new result }
    ensures lighter { Lightens (λ w. 2 * (form_weight w form.entry + frames_weight w frames.old)) frames.new result }
    ensures kept { Keeps frames.old frames.new result }
{
    match form {
        Form::Boolean => Ok(Pending::Made(read_boolean(cursor)?)),
        Form::Integer {
            low,
            high,
            extensible,
        } => Ok(Pending::Made(read_integer(cursor, &Range { low, high }, extensible)?)),
        Form::Enumerated { names, extensible } => Ok(Pending::Made(read_enumerated(
            cursor, names, extensible,
        )?)),
        Form::BitString(size) => Ok(Pending::Made(read_bit_string(alloc, cursor, size)?)),
        Form::OctetString(size) => Ok(Pending::Made(read_octet_string(alloc, cursor, size)?)),
        Form::PrintableString(size) => {
            Ok(Pending::Made(read_printable_string(alloc, cursor, size)?))
        }
        Form::Sequence(members) => begin_sequence(alloc, cursor, frames, members),
        Form::Choice(members) => begin_choice(cursor, frames, members),
        Form::SequenceOf { size, element } => begin_list(alloc, cursor, frames, size, element),
        Form::Container(rows) => begin_container(alloc, cursor, frames, rows),
        Form::Pdu(rows) => begin_message(cursor, frames, rows),
    }
}
