//! Values that hold no others, read in place.

ghost use Rattle.std.specs.Prelude.{ℕ, ◌≡◌, true};
ghost use Rattle.aper_defs.specs.Asking.{asks};
ghost use Rattle.aper_defs.specs.Trees.{Tree};
ghost use Rattle.aper_values.specs.types.Forms.{form_tree};
ghost use Rattle.aper_frames.specs.simple.Reads.{Reads};
ghost use Rattle.aper_values.specs.declared.value.Value.{Value};
ghost use Rattle.aper_decode.specs.Forms.{IsFormBounded, is_simple};
ghost use Rattle.aper_decode.specs.Puts.{Puts, PutsRead};

use aper_cursor::{Cursor, Range, Unanswered};
use aper_frames::simple::{
    read_bit_string, read_boolean, read_enumerated, read_integer, read_octet_string,
    read_printable_string,
};
use aper_values::types::Form;
use aper_values::value::Value;
use std::alloc::Global;

/// Whether no value of a type of this form holds others.
pub fn is_simple(form: Form) -> bool
    ensures { result ≡ is_simple form.entry }
{
    match form {
        Form::Boolean => true,
        Form::Integer { .. } => true,
        Form::Enumerated { .. } => true,
        Form::BitString(_) => true,
        Form::OctetString(_) => true,
        Form::PrintableString(_) => true,
        Form::Sequence(_) => false,
        Form::Choice(_) => false,
        Form::SequenceOf { .. } => false,
        Form::Container(_) => false,
        Form::Pdu(_) => false,
    }
}

/// The value of a type of this form.
#[inline(always)]
pub fn read_form(alloc: Global, cursor: &mut Cursor, form: Form) -> Result<Value, Unanswered>
    requires bounded { IsFormBounded form }
    requires simple { is_simple form ≡ true }
    ensures { (of : ℕ → Tree) → Reads (λ p. asks p (form_tree of form.entry)) cursor.old cursor.new result }
{
    match form {
        Form::Boolean => read_boolean(cursor),
        Form::Integer {
            low,
            high,
            extensible,
        } => read_integer(cursor, &Range { low, high }, extensible),
        Form::Enumerated { names, extensible } => read_enumerated(cursor, names, extensible),
        Form::BitString(size) => read_bit_string(alloc, cursor, size),
        Form::OctetString(size) => read_octet_string(alloc, cursor, size),
        Form::PrintableString(size) => read_printable_string(alloc, cursor, size),
        Form::Sequence(_) => unreachable!(),
        Form::Choice(_) => unreachable!(),
        Form::SequenceOf { .. } => unreachable!(),
        Form::Container(_) => unreachable!(),
        Form::Pdu(_) => unreachable!(),
    }
}

/// How a value that was read is kept among those before it.
pub trait Keep<P> {
    /// Holds of this, a value, and what it is kept as.
    ghost keeps: { Self → Value → P → Type 0 };

    /// What the value is kept as.
    fn keep(&self, value: Value) -> P
        ensures { keeps self.now value result };
}

/// As a member, or a component that is there.
#[derive(Clone, Copy)]
pub struct Itself;

impl<P: From<Value>> Keep<P> for Itself {
    ghost keeps = { λ itself value kept. P.from_gives value kept };

    #[inline(always)]
    fn keep(&self, value: Value) -> P {
        P::from(value)
    }
}

/// Puts the value of a part of this form after those before it, as it is kept there. Each form has a call of its own, so that its value
/// is put as it is made: a `Value` that may be of any form is stored and loaded in other pieces, and waiting for these costs more than
/// the reading.
#[inline(always)]
pub fn put_part<P: Drop, K: Keep<P>>(
    alloc: Global,
    cursor: &mut Cursor,
    form: Form,
    how: &K,
    made: &mut Vec<P>,
) -> Result<(), Unanswered>
    requires bounded { IsFormBounded form }
    requires simple { is_simple form ≡ true }
    ensures { (of : ℕ → Tree) → Puts (K.keeps how.now) (λ p. asks p (form_tree of form.entry)) cursor.old cursor.new made.old.items made.new.items result }
{
    match form {
        Form::Boolean => put(made, how, read_boolean(cursor)),
        Form::Integer {
            low,
            high,
            extensible,
        } => put(
            made,
            how,
            read_integer(cursor, &Range { low, high }, extensible),
        ),
        Form::Enumerated { names, extensible } => {
            put(made, how, read_enumerated(cursor, names, extensible))
        }
        Form::BitString(size) => put(made, how, read_bit_string(alloc, cursor, size)),
        Form::OctetString(size) => put(made, how, read_octet_string(alloc, cursor, size)),
        Form::PrintableString(size) => put(made, how, read_printable_string(alloc, cursor, size)),
        Form::Sequence(_) => unreachable!(),
        Form::Choice(_) => unreachable!(),
        Form::SequenceOf { .. } => unreachable!(),
        Form::Container(_) => unreachable!(),
        Form::Pdu(_) => unreachable!(),
    }
}

/// Puts a value that was read after those before it.
#[inline(always)]
fn put<P: Drop, K: Keep<P>>(
    made: &mut Vec<P>,
    how: &K,
    read: Result<Value, Unanswered>,
) -> Result<(), Unanswered>
    ensures { PutsRead (K.keeps how.now) read made.old.items made.new.items result }
{
    made.push(how.keep(read?))?;
    Ok(())
}
