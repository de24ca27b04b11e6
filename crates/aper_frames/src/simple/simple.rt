//! Values with no other one inside.

ghost use Rattle.std.specs.Prelude.{◌≡◌, ◌≤◌, ◌<◌, ◌^◌, map, true, ◌==◌, IfOk};
ghost use Rattle.std.specs.Int.Signed.{le_z};
ghost use Rattle.aper_defs.specs.Numbers.{above};
ghost use Rattle.aper_defs.specs.Bounds.{IsSizeBounded};
ghost use Rattle.aper_defs.specs.Trees as trees;
ghost use Rattle.aper_defs.specs.Asking.{asks};
ghost use Rattle.aper_frames.specs.simple.Reads.{Reads};

use aper_cursor::asking::{ask_flag, ask_index, ask_integer};
use aper_cursor::strings::{Content, ask_string};
use aper_cursor::{Cursor, Range, Unanswered};
use aper_values::make;
use aper_values::value::Value;
use asn1_syntax::types::Size;
use gnb_types::bits::Bits;
use std::alloc::{AllocError, Global};

#[inline(always)]
#[tactic(auto, unfolding(aper_defs::specs::Asking::asks))]
pub fn read_boolean(cursor: &mut Cursor) -> Result<Value, Unanswered>
    ensures { Reads (λ p. asks p trees.boolean) cursor.old cursor.new result }
{
    let bit = ask_flag(cursor)?;
    Ok(make::truth(bit))
}

#[inline(always)]
#[tactic(auto, unfolding(aper_defs::specs::Asking::asks))]
pub fn read_integer(
    cursor: &mut Cursor,
    range: &Range,
    extensible: bool,
) -> Result<Value, Unanswered>
    requires order { le_z range.now.low range.now.high ≡ true }
    requires span { above range.now.low range.now.high < 2 ^ 64 }
    ensures { Reads (λ p. asks p (trees.integer range.now.low range.now.high extensible)) cursor.old cursor.new result }
{
    let number: i128 = ask_integer(cursor, range, extensible)?;
    Ok(make::integer(number))
}

#[inline(always)]
#[tactic(auto, unfolding(aper_defs::specs::Asking::asks))]
pub fn read_enumerated(
    cursor: &mut Cursor,
    names: usize,
    extensible: bool,
) -> Result<Value, Unanswered>
    requires some { 1 ≤ names }
    requires most { names ≤ 256 }
    ensures { Reads (λ p. asks p (trees.enumerated names extensible)) cursor.old cursor.new result }
{
    let index = ask_index(cursor, names as u64, extensible)?;
    Ok(make::enumeral(index as u32))
}

#[tactic(auto, unfolding(aper_defs::specs::Asking::asks))]
pub fn read_bit_string(
    alloc: Global,
    cursor: &mut Cursor,
    size: Option<Size>,
) -> Result<Value, Unanswered>
    requires { IsSizeBounded size }
    ensures { Reads (λ p. asks p (trees.bit_string size)) cursor.old cursor.new result }
{
    let units = ask_string(alloc, cursor, Content::Bits, size)?;
    let bits = truth_values(alloc, units.as_slice())?;
    Ok(make::bit_string(Bits::from_vec(bits)))
}

/// Truth values from numbers, 0 or 1.
fn truth_values(alloc: Global, units: &[u8]) -> Result<Vec<bool>, AllocError>
    ensures { IfOk result (λ bits. bits.items ≡ map (λ b. b == 1) units.now) }
{
    units.iter().map(|unit| *unit == 1).collect(alloc)
}

#[tactic(auto, unfolding(aper_defs::specs::Asking::asks))]
pub fn read_octet_string(
    alloc: Global,
    cursor: &mut Cursor,
    size: Option<Size>,
) -> Result<Value, Unanswered>
    requires { IsSizeBounded size }
    ensures { Reads (λ p. asks p (trees.octet_string size)) cursor.old cursor.new result }
{
    let octets = ask_string(alloc, cursor, Content::Octets, size)?;
    Ok(make::octet_string(octets))
}

#[tactic(auto, unfolding(aper_defs::specs::Asking::asks))]
pub fn read_printable_string(
    alloc: Global,
    cursor: &mut Cursor,
    size: Option<Size>,
) -> Result<Value, Unanswered>
    requires { IsSizeBounded size }
    ensures { Reads (λ p. asks p (trees.printable_string size)) cursor.old cursor.new result }
{
    let characters = ask_string(alloc, cursor, Content::Characters, size)?;
    Ok(make::printable_string(characters))
}
