//! Numbers.

ghost use Rattle.std.specs.Prelude.{◌≡◌, ◌≤◌, ◌<◌, ◌^◌, pos, ◌+ℤ◌, true, false, IfOk};
ghost use Rattle.std.specs.Int.Signed.{le_z};
ghost use Rattle.aper_defs.specs.Numbers.{above};
ghost use Rattle.aper_defs.specs.Questions.{ask_extension, ask_number, ask_large, ask_integer, ask_integer_by};
ghost use Rattle.aper_cursor.specs.Questions.{role_of};
ghost use Rattle.aper_cursor.specs.asking.Going.{GoesOn};

use crate::asking::steps::{ask_aligned, ask_flag, ask_one};
use crate::{Cursor, Extent, Question, Range, Role, bits_for, octets_for, signed_number};
use aper_defs::Reason;

/// An extension bit, where the type is extensible.
#[inline(always)]
pub fn ask_extension(cursor: &mut Cursor, extensible: bool) -> Result<bool, Reason>
    ensures { GoesOn (λ p. ask_extension p extensible) cursor.old cursor.new result }
{
    if !extensible {
        return Ok(false);
    }
    Ok(ask_flag(cursor)?)
}

/// A number from 0 to the span.
#[tactic(auto, unfolding(aper_defs::specs::Questions::ask_number))]
pub fn ask_number(cursor: &mut Cursor, role: Role, span: u64) -> Result<u64, Reason>
    ensures asked { GoesOn (λ p. ask_number p (role_of role) span) cursor.old cursor.new result }
    ensures most { IfOk result (λ n. n ≤ span) }
{
    if span == 0 {
        return Ok(0);
    }
    if span < 255 {
        let width = bits_for(span);
        let few = Question::Constrained {
            role,
            width,
            most: span,
        };
        return Ok(ask_one(cursor, few)?);
    }
    if span < 65536 {
        let width = if span == 255 { 8 } else { 16 };
        let whole = Question::Constrained {
            role,
            width,
            most: span,
        };
        return Ok(ask_aligned(cursor, whole)?);
    }
    Ok(ask_large(cursor, span)?)
}

/// A number in as many octets as it takes.
fn ask_large(cursor: &mut Cursor, span: u64) -> Result<u64, Reason>
    ensures asked { GoesOn (λ p. ask_large p span) cursor.old cursor.new result }
    ensures most { IfOk result (λ n. n ≤ span) }
{
    let most = u64::from(octets_for(span) - 1);
    let width = bits_for(most);
    let further = ask_one(
        cursor,
        Question::Constrained {
            role: Role::Value,
            width,
            most,
        },
    )?;
    let count = further as u32 + 1;
    Ok(ask_aligned(cursor, Question::Digits { count, most: span })?)
}

/// An INTEGER of a range, in it or past it.
#[inline(always)]
pub fn ask_integer(cursor: &mut Cursor, range: &Range, extensible: bool) -> Result<i128, Reason>
    requires order { le_z range.now.low range.now.high ≡ true }
    requires span { above range.now.low range.now.high < 2 ^ 64 }
    ensures { GoesOn (λ p. ask_integer p range.now.low range.now.high extensible) cursor.old cursor.new result }
{
    let is_extended = ask_extension(cursor, extensible)?;
    if is_extended {
        return ask_signed(cursor, range);
    }
    ask_inside(cursor, range)
}

/// A number in a range.
#[inline(always)]
fn ask_inside(cursor: &mut Cursor, range: &Range) -> Result<i128, Reason>
    requires order { le_z range.now.low range.now.high ≡ true }
    requires span { above range.now.low range.now.high < 2 ^ 64 }
    ensures { GoesOn (λ p K. ask_integer_by p range.now.low range.now.high K false) cursor.old cursor.new result }
{
    let span = above(range);
    let number = ask_number(cursor, Role::Value, span)?;
    Ok(from_low(range, number))
}

/// A number past a range.
fn ask_signed(cursor: &mut Cursor, range: &Range) -> Result<i128, Reason>
    ensures { GoesOn (λ p K. ask_integer_by p range.now.low range.now.high K true) cursor.old cursor.new result }
{
    let whole = Extent::Whole {
        least: 1,
        most: 8,
        outside: None,
    };
    let count = ask_aligned(cursor, Question::Extent(whole))? as u32;
    let signed = Question::Signed {
        count,
        range: *range,
    };
    let octets = ask_one(cursor, signed)?;
    Ok(signed_number(count, octets))
}

/// How far the end of a range is above its beginning.
#[inline(always)]
fn above(range: &Range) -> u64
    requires order { le_z range.now.low range.now.high ≡ true }
    requires span { above range.now.low range.now.high < 2 ^ 64 }
    ensures { result ≡ above range.now.low range.now.high }
{
    (range.high - range.low) as u64
}

/// The number that is so far above the beginning of a range.
#[inline(always)]
#[tactic(auto, using(crate::proofs::asking::Onward::low_fits))]
fn from_low(range: &Range, number: u64) -> i128
    requires order { le_z range.now.low range.now.high ≡ true }
    requires most { number ≤ above range.now.low range.now.high }
    ensures { result ≡ range.now.low +ℤ pos number }
{
    let range = *range;
    range.low + i128::from(number)
}
