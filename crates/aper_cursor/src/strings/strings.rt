//! Strings.

ghost use Rattle.std.specs.Prelude.{◌≡◌, ◌≤◌, ◌<◌, ◌^◌, length, Some};
ghost use Rattle.aper_defs.specs.Bounds.{IsSizeBounded};
ghost use Rattle.aper_defs.specs.Fields.{pad};
ghost use Rattle.aper_defs.specs.Parts.{pad_limit};
ghost use Rattle.aper_defs.specs.Questions.{ask, ask_string, ask_sized, ask_units, ask_all_parts};
ghost use Rattle.aper_cursor.specs.asking.Going.{GoesOnOrMemory, PutsOn};
ghost use Rattle.aper_cursor.specs.strings.Contents.{content_of};

use crate::asking::{ask_aligned, ask_extension, ask_number, ask_one};
use crate::strings::units::{Content, ask_units};
use crate::{Cursor, Extent, Question, Role, Unanswered};
use asn1_syntax::types::Size;
use gnb_types::octets::Octets;
use std::alloc::Global;

/// A part of a string that isn't the last one has so many units, or up to four times so many.
const PART_UNITS: u64 = 16384;

/// The first parts of an encoding have so many bits at least, and only 64 fit it.
const PART_LIMIT: u32 = 65;

/// A string. Its bits are numbers, 0 or 1.
pub fn ask_string(
    alloc: Global,
    cursor: &mut Cursor,
    content: Content,
    size: Option<Size>,
) -> Result<Octets, Unanswered>
    requires { IsSizeBounded size }
    ensures { GoesOnOrMemory (λ p. ask_string p (content_of content) size) cursor.old cursor.new result }
{
    let mut units = Vec::new(alloc);
    ask_into(cursor, content, size, &mut units)?;
    Ok(Octets::from_vec(units))
}

/// A string, of which nothing is there yet.
#[tactic(auto, unfolding(aper_defs::specs::Questions::ask_string))]
fn ask_into(
    cursor: &mut Cursor,
    content: Content,
    size: Option<Size>,
    out: &mut Vec<u8>,
) -> Result<(), Unanswered>
    requires bounded { IsSizeBounded size }
    requires empty { length out.old.items ≡ 0 }
    ensures { PutsOn (λ p. ask_string p (content_of content) size) cursor.old cursor.new out.old.items out.new.items result }
{
    match size {
        None => Ok(ask_parts(cursor, content, None, out)?),
        Some(bounds) => Ok(ask_bounded(cursor, content, bounds, out)?),
    }
}

/// A string in a size or past it, of which nothing is there yet.
fn ask_bounded(
    cursor: &mut Cursor,
    content: Content,
    bounds: Size,
    out: &mut Vec<u8>,
) -> Result<(), Unanswered>
    requires bounded { IsSizeBounded (Some bounds) }
    requires empty { length out.old.items ≡ 0 }
    ensures { PutsOn (λ p. ask_string p (content_of content) (Some bounds)) cursor.old cursor.new out.old.items out.new.items result }
{
    let is_extended = ask_extension(cursor, bounds.extensible)?;
    if is_extended {
        return ask_parts(cursor, content, Some(bounds), out);
    }
    ask_sized(cursor, content, bounds, out)
}

/// A string in the root of a size.
fn ask_sized(
    cursor: &mut Cursor,
    content: Content,
    size: Size,
    out: &mut Vec<u8>,
) -> Result<(), Unanswered>
    requires low { size.low ≤ size.high }
    requires high { size.high < 65536 }
    ensures { PutsOn (λ p. ask_sized p (content_of content) size) cursor.old cursor.new out.old.items out.new.items result }
{
    if size.low == size.high {
        if size.low <= content.pad_limit() {
            return Ok(ask_units(cursor, content, size.low, out)?);
        }
        return ask_padded(cursor, content, size.low, out);
    }
    let further = ask_number(cursor, Role::Length, u64::from(size.high - size.low))?;
    ask_padded(cursor, content, size.low + further as u32, out)
}

/// So many units after a pad.
fn ask_padded(
    cursor: &mut Cursor,
    content: Content,
    count: u32,
    out: &mut Vec<u8>,
) -> Result<(), Unanswered>
    requires { count < 2 ^ 29 }
    ensures { PutsOn (λ p K. ask p pad (λ z. ask_units p (content_of content) count K)) cursor.old cursor.new out.old.items out.new.items result }
{
    ask_one(cursor, Question::Pad)?;
    Ok(ask_units(cursor, content, count, out)?)
}

/// A string in parts, of which nothing is there yet.
fn ask_parts(
    cursor: &mut Cursor,
    content: Content,
    outside: Option<Size>,
    out: &mut Vec<u8>,
) -> Result<(), Unanswered>
    requires { length out.old.items ≡ 0 }
    ensures { PutsOn (λ p. ask_all_parts p (content_of content) outside) cursor.old cursor.new out.old.items out.new.items result }
{
    let mut previous = 4 * PART_UNITS;
    for turn in 0..PART_LIMIT {
        let length = Extent::Part {
            before: out.len() as u64,
            previous,
            outside,
        };
        let count = ask_aligned(cursor, Question::Extent(length))?;
        ask_units(cursor, content, count as u32, out)?;
        if count < PART_UNITS {
            return Ok(());
        }
        previous = count;
    }
    unreachable!()
}
