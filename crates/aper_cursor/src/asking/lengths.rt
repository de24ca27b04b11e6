//! Indices and lengths.

ghost use Rattle.std.specs.Prelude.{◌≡◌, ◌+◌, ◌≤◌, ◌<◌, ◌^◌, Some, IfOk};
ghost use Rattle.aper_defs.specs.Bounds.{IsSizeBounded};
ghost use Rattle.aper_defs.specs.Questions.{ask_index, ask_count, ask_aligned};
ghost use Rattle.aper_defs.specs.Fields.{extent, whole};
ghost use Rattle.aper_cursor.specs.asking.Going.{GoesOn};

use crate::asking::numbers::{ask_extension, ask_number};
use crate::asking::steps::{ask_aligned, ask_one};
use crate::{Cursor, Extent, Question, Role};
use aper_defs::Reason;
use asn1_syntax::types::Size;

/// An index, among so many of the root or past them.
pub fn ask_index(cursor: &mut Cursor, count: u64, extensible: bool) -> Result<u64, Reason>
    requires some { 1 ≤ count }
    requires most { count < 2 ^ 32 }
    ensures asked { GoesOn (λ p. ask_index p count extensible) cursor.old cursor.new result }
    ensures most { IfOk result (λ i. i < count + 64) }
{
    let is_extended = ask_extension(cursor, extensible)?;
    if is_extended {
        let further = ask_one(cursor, Question::Small(Role::Index))?;
        return Ok(count + further);
    }
    let index = ask_number(cursor, Role::Index, count - 1)?;
    Ok(index)
}

/// How many members come.
#[tactic(auto, unfolding(aper_defs::specs::Questions::ask_count))]
pub fn ask_count(cursor: &mut Cursor, size: Option<Size>) -> Result<u64, Reason>
    requires { IsSizeBounded size }
    ensures asked { GoesOn (λ p. ask_count p size) cursor.old cursor.new result }
    ensures most { IfOk result (λ n. n < 65536) }
{
    match size {
        None => Ok(ask_whole(cursor, None)?),
        Some(bounds) => Ok(ask_bounded(cursor, bounds)?),
    }
}

/// How many members come, in a size or past it.
fn ask_bounded(cursor: &mut Cursor, bounds: Size) -> Result<u64, Reason>
    requires { IsSizeBounded (Some bounds) }
    ensures asked { GoesOn (λ p. ask_count p (Some bounds)) cursor.old cursor.new result }
    ensures most { IfOk result (λ n. n < 65536) }
{
    let is_extended = ask_extension(cursor, bounds.extensible)?;
    if is_extended {
        let outside = ask_whole(cursor, Some(bounds))?;
        return Ok(outside);
    }
    let span = u64::from(bounds.high - bounds.low);
    let further = ask_number(cursor, Role::Length, span)?;
    Ok(u64::from(bounds.low) + further)
}

/// A whole length, not in the root of a size.
fn ask_whole(cursor: &mut Cursor, outside: Option<Size>) -> Result<u64, Reason>
    ensures asked { GoesOn (λ p. ask_aligned p (extent (whole 0 16383 outside))) cursor.old cursor.new result }
    ensures most { IfOk result (λ n. n < 65536) }
{
    let whole = Extent::Whole {
        least: 0,
        most: 16383,
        outside,
    };
    Ok(ask_aligned(cursor, Question::Extent(whole))?)
}
