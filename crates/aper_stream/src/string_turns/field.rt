//! The fields of a string before its units.

ghost use Rattle.std.specs.Prelude.{◌≡◌, ℕ, ◌+◌, ◌-◌, ◌<◌, ◌≤◌, Some, IfOk};
ghost use Rattle.aper_defs.specs.Bounds.{IsSizeBounded};
ghost use Rattle.aper_stream.specs.declared.string_turns.field.StringField.TheVariants as next;
ghost use Rattle.aper_stream.specs.string_turns.Strings.{IsSameField, IsPartsBounded, IsFieldBounded, TakesField};
ghost use Rattle.aper_cursor.specs.strings.Contents.{content_of};

use aper_cursor::asking::{ask_aligned, ask_extension, ask_number, ask_one};
use aper_cursor::strings::Content;
use aper_cursor::{Cursor, Extent, Question, Role};
use aper_defs::Reason;
use asn1_syntax::types::Size;

/// A part of a string that isn't the last one has so many units, or up to four times so many.
const PART_UNITS: u64 = 16384;

/// The first parts of an encoding have so many bits at least, and only 64 fit it.
const PART_LIMIT: u32 = 65;

/// Parts of a string that come after others, whose whole length isn't in the root of a size.
#[derive(Clone, Copy)]
pub struct Parts {
    pub outside: Option<Size>,
    /// So many may come.
    pub turns: u32,
    /// So many units stand before them.
    pub before: u64,
    /// The part before them has so many.
    pub previous: u64,
}

/// What comes next of a string.
#[derive(Clone, Copy)]
pub enum StringField {
    /// All of it.
    All(Option<Size>),
    /// A string in the root of its size.
    Sized(Size),
    /// A pad, and so many units.
    Padded(u32),
    /// The length of a part.
    Length(Parts),
    /// So many units, and then parts.
    Units { count: u32, others: Option<Parts> },
    Nothing,
}

/// What comes after a field that isn't a unit.
pub fn after_field(
    cursor: &mut Cursor,
    content: Content,
    field: StringField,
) -> Result<StringField, Reason>
    requires { IsFieldBounded cursor.old.place field }
    ensures asked { TakesField (content_of content) field cursor.old cursor.new result }
    ensures bounded { IfOk result (IsFieldBounded cursor.new.place) }
{
    match field {
        StringField::All(size) => after_beginning(cursor, content, size),
        StringField::Sized(size) => after_size(cursor, content, size),
        StringField::Padded(count) => after_pad(cursor, content, count),
        StringField::Length(parts) => after_length(cursor, content, parts),
        StringField::Units { .. } => Ok(field),
        StringField::Nothing => Ok(field),
    }
}

/// After what comes first of a string.
fn after_beginning(
    cursor: &mut Cursor,
    content: Content,
    size: Option<Size>,
) -> Result<StringField, Reason>
    requires { IsSizeBounded size }
    ensures asked { TakesField (content_of content) (next.All size) cursor.old cursor.new result }
    ensures bounded { IfOk result (IsFieldBounded cursor.new.place) }
{
    match size {
        None => Ok(StringField::Length(all_parts(None))),
        Some(size) => after_extension(cursor, content, size),
    }
}

/// All parts of a string.
fn all_parts(outside: Option<Size>) -> Parts
    ensures { result ≡ record { outside = outside; turns = 65; before = 0; previous = 65536 } }
{
    Parts {
        outside,
        turns: PART_LIMIT,
        before: 0,
        previous: 4 * PART_UNITS,
    }
}

/// After the extension bit of a string.
fn after_extension(cursor: &mut Cursor, content: Content, size: Size) -> Result<StringField, Reason>
    requires { IsSizeBounded (Some size) }
    ensures asked { TakesField (content_of content) (next.All (Some size)) cursor.old cursor.new result }
    ensures bounded { IfOk result (IsFieldBounded cursor.new.place) }
{
    let is_extended = ask_extension(cursor, size.extensible)?;
    if is_extended {
        Ok(StringField::Length(all_parts(Some(size))))
    } else {
        Ok(StringField::Sized(size))
    }
}

/// After the length of a string in the root of its size; a fixed one isn't told.
fn after_size(cursor: &mut Cursor, content: Content, size: Size) -> Result<StringField, Reason>
    requires { IsSizeBounded (Some size) }
    ensures asked { TakesField (content_of content) (next.Sized size) cursor.old cursor.new result }
    ensures bounded { IfOk result (IsFieldBounded cursor.new.place) }
{
    if size.low == size.high {
        return Ok(after_fixed(content, size));
    }
    let further = ask_number(cursor, Role::Length, u64::from(size.high - size.low))?;
    Ok(StringField::Padded(units_of(size, further)))
}

/// How many units there are, so many more than the fewest.
fn units_of(size: Size, further: u64) -> u32
    requires bounded { IsSizeBounded (Some size) }
    requires most { further ≤ size.high - size.low }
    ensures { result ≡ size.low + further }
{
    size.low + further as u32
}

/// What comes of a string of a fixed size: it is aligned, unless it is short.
fn after_fixed(content: Content, size: Size) -> StringField
    requires fixed { size.low ≡ size.high }
    requires bounded { IsSizeBounded (Some size) }
    ensures asked { IsSameField (content_of content) (next.Sized size) result }
    ensures bounded { (place : ℕ) → IsFieldBounded place result }
{
    if size.low <= content.pad_limit() {
        StringField::Units {
            count: size.low,
            others: None,
        }
    } else {
        StringField::Padded(size.low)
    }
}

/// After a pad.
fn after_pad(cursor: &mut Cursor, content: Content, count: u32) -> Result<StringField, Reason>
    requires { count < 65536 }
    ensures asked { TakesField (content_of content) (next.Padded count) cursor.old cursor.new result }
    ensures bounded { IfOk result (IsFieldBounded cursor.new.place) }
{
    ask_one(cursor, Question::Pad)?;
    Ok(StringField::Units {
        count,
        others: None,
    })
}

/// After the length of a part.
fn after_length(cursor: &mut Cursor, content: Content, parts: Parts) -> Result<StringField, Reason>
    requires { IsPartsBounded cursor.old.place parts }
    ensures asked { TakesField (content_of content) (next.Length parts) cursor.old cursor.new result }
    ensures bounded { IfOk result (IsFieldBounded cursor.new.place) }
{
    let turns = turns_after(cursor, &parts);
    let length = Extent::Part {
        before: parts.before,
        previous: parts.previous,
        outside: parts.outside,
    };
    let count = ask_aligned(cursor, Question::Extent(length))?;
    if count < PART_UNITS {
        return Ok(StringField::Units {
            count: count as u32,
            others: None,
        });
    }
    let others = Parts {
        outside: parts.outside,
        turns,
        before: parts.before + count,
        previous: count,
    };
    Ok(StringField::Units {
        count: count as u32,
        others: Some(others),
    })
}

/// How many parts may come after the next one: where parts are awaited, there is room for one.
fn turns_after(cursor: &Cursor, parts: &Parts) -> u32
    requires { IsPartsBounded cursor.now.place parts.now }
    ensures { parts.now.turns ≡ result + 1 }
{
    let place = cursor.place();
    prove!(place <= 1_048_576);
    parts.turns - 1
}
