//! Strings and counts.

ghost use Rattle.std.specs.Prelude.{◌≡◌, ℕ, ◌-◌, ◌%◌, ◌<◌, ◌≤◌, [], true, false, length, take, drop, OnOk, Option, Some, None};
ghost use Rattle.asn1_syntax.specs.declared.types.definition.Size.{Size};
ghost use Rattle.aper_defs.specs.Fields.{Role};
ghost use Rattle.aper_defs.specs.Parts.{in_size, unit_fields, sized_fields, part_of_fields, all_part_fields, string_fields, count_fields, pad_limit, of_characters};
ghost use Rattle.aper_defs.specs.Membership.{is_count_of};
ghost use Rattle.aper_defs.specs.Bounds.{IsSizeBounded};
ghost use Rattle.aper_fields.specs.Following.{Follows};
ghost use Rattle.aper_fields.specs.Strings.{content_of, units_of};

use crate::fields::put_pad;
use crate::lengths::{PART_UNITS, put_extent};
use crate::numbers::{put_extension, put_number};
use crate::runs::{put_bit_run, put_few_octets, put_octets};
use asn1_syntax::types::Size;
use bits_core::writer::BitWriter;
use gnb_types::items::Memory;

/// What a string is made of.
#[derive(Clone, Copy)]
pub enum Units<'a> {
    Bits(&'a [bool]),
    Octets(&'a [u8]),
    Characters(&'a [u8]),
}

impl<'a> Units<'a> {
    pub fn len(self) -> usize
        ensures { result ≡ length (units_of self.entry) }
    {
        match self {
            Units::Bits(bits) => bits.len(),
            Units::Octets(octets) | Units::Characters(octets) => octets.len(),
        }
    }

    /// The first ones, so many, and the others.
    fn split_at(self, count: usize) -> (Units<'a>, Units<'a>)
        requires { count ≤ length (units_of self) }
        ensures contents { (content_of result.0 ≡ content_of self.entry) × (content_of result.1 ≡ content_of self.entry) }
        ensures front { units_of result.0 ≡ take count (units_of self.entry) }
        ensures rest { units_of result.1 ≡ drop count (units_of self.entry) }
    {
        match self {
            Units::Bits(bits) => {
                let (front, rest) = bits.split_at(count);
                (Units::Bits(front), Units::Bits(rest))
            }
            Units::Octets(octets) => {
                let (front, rest) = octets.split_at(count);
                (Units::Octets(front), Units::Octets(rest))
            }
            Units::Characters(characters) => {
                let (front, rest) = characters.split_at(count);
                (Units::Characters(front), Units::Characters(rest))
            }
        }
    }

    /// A string of a fixed size above this one is aligned.
    pub fn pad_limit(self) -> u32
        ensures { result ≡ pad_limit (content_of self.entry) }
    {
        match self {
            Units::Bits(_) => 16,
            Units::Octets(_) => 2,
            Units::Characters(_) => 0,
        }
    }
}

/// The units at an octet's beginning.
fn put_units(out: &mut BitWriter, units: Units<'_>) -> Result<(), Memory>
    requires going { out.old.failed ≡ false }
    requires aligned { length out.old.bits % 8 ≡ 0 }
    ensures going { OnOk result (out.new.failed ≡ false) }
    ensures follows { OnOk result (Follows out.old out.new (λ p. unit_fields p (content_of units.entry) (units_of units.entry))) }
{
    match units {
        Units::Bits(bits) => put_bit_run(out, bits),
        Units::Octets(octets) | Units::Characters(octets) => put_octets(out, octets),
    }
}

/// A few units wherever.
fn put_few_units(out: &mut BitWriter, units: Units<'_>) -> Result<(), Memory>
    requires going { out.old.failed ≡ false }
    ensures going { OnOk result (out.new.failed ≡ false) }
    ensures follows { OnOk result (Follows out.old out.new (λ p. unit_fields p (content_of units.entry) (units_of units.entry))) }
{
    match units {
        Units::Bits(bits) => put_bit_run(out, bits),
        Units::Octets(octets) | Units::Characters(octets) => put_few_octets(out, octets),
    }
}

/// A length, and then so many units.
fn put_part(out: &mut BitWriter, units: Units<'_>) -> Result<(), Memory>
    requires { length (units_of units) ≤ 65536 }
    ensures going { OnOk result (out.new.failed ≡ false) }
    ensures follows { OnOk result ((outside : Option Size) (before previous : ℕ)
        → Follows out.old out.new (λ p. part_of_fields p (content_of units.entry) outside before previous (units_of units.entry))) }
{
    put_pad(out)?;
    put_extent(out, units.len() as u32)?;
    put_units(out, units)
}

/// A string in parts: the most units that a part takes come first, and what is left after the last whole part stands alone, also where
/// nothing is left.
fn put_parts(out: &mut BitWriter, units: Units<'_>) -> Result<(), Memory>
    ensures going { OnOk result (out.new.failed ≡ false) }
    ensures follows { OnOk result ((outside : Option Size)
        → Follows out.old out.new (λ p. all_part_fields p (content_of units.entry) outside (units_of units.entry))) }
{
    let mut left = units;
    while left.len() >= PART_UNITS {
        let (front, rest) = left.split_at(PART_UNITS * (left.len() / PART_UNITS).min(4));
        put_part(out, front)?;
        left = rest;
    }
    put_part(out, left)
}

/// A string in the root of its size.
fn put_sized(out: &mut BitWriter, units: Units<'_>, size: Size) -> Result<(), Memory>
    requires inside { in_size size (length (units_of units)) ≡ true }
    requires going { out.old.failed ≡ false }
    ensures going { OnOk result (out.new.failed ≡ false) }
    ensures follows { OnOk result (Follows out.old out.new (λ p. sized_fields p (content_of units.entry) size (units_of units.entry))) }
{
    if size.low == size.high {
        if size.low <= units.pad_limit() {
            return Ok(put_few_units(out, units)?);
        }
        put_pad(out)?;
        return Ok(put_units(out, units)?);
    }
    put_number(
        out,
        u64::from(size.high - size.low),
        units.len() as u64 - u64::from(size.low),
    )?;
    put_pad(out)?;
    Ok(put_units(out, units)?)
}

/// The size allows so many without its extension.
pub fn in_size(size: Size, count: usize) -> bool
    ensures { result ≡ in_size size count }
{
    size.low as usize <= count && count <= size.high as usize
}

/// A string.
#[tactic(auto, unfolding(aper_defs::specs::Parts::string_fields))]
pub fn put_string(out: &mut BitWriter, units: Units<'_>, size: Option<Size>) -> Result<(), Memory>
    requires going { out.old.failed ≡ false }
    ensures going { OnOk result (out.new.failed ≡ false) }
    ensures follows { OnOk result (Follows out.old out.new (λ p. string_fields p (content_of units.entry) size (units_of units.entry))) }
{
    let Some(size) = size else {
        return Ok(put_parts(out, units)?);
    };
    let is_inside = in_size(size, units.len());
    put_extension(out, size.extensible, !is_inside)?;
    if is_inside {
        return Ok(put_sized(out, units, size)?);
    }
    Ok(put_parts(out, units)?)
}

/// How many members follow.
#[tactic(auto, unfolding(aper_defs::specs::Parts::count_fields))]
pub fn put_count(out: &mut BitWriter, size: Option<Size>, count: usize) -> Result<(), Memory>
    requires most { count < 65536 }
    requires going { out.old.failed ≡ false }
    ensures going { OnOk result (out.new.failed ≡ false) }
    ensures follows { OnOk result (Follows out.old out.new (λ p. count_fields p size count)) }
{
    if let Some(size) = size {
        let is_inside = in_size(size, count);
        put_extension(out, size.extensible, !is_inside)?;
        if is_inside {
            return Ok(put_number(
                out,
                u64::from(size.high - size.low),
                count as u64 - u64::from(size.low),
            )?);
        }
    }
    put_pad(out)?;
    Ok(put_extent(out, count as u32)?)
}
