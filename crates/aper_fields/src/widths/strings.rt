//! Strings and counts.

ghost use Rattle.std.specs.Prelude.{◌≡◌, ◌<◌, ◌^◌, [], ◌∷◌, true, length, Option};
ghost use Rattle.asn1_syntax.specs.declared.types.definition.Size.{Size};
ghost use Rattle.aper_defs.specs.Fields.{Extent, asked, pad, extent};
ghost use Rattle.aper_defs.specs.Parts.{in_size, unit_fields, sized_fields, all_part_fields, string_fields, count_fields};
ghost use Rattle.aper_fields.specs.Strings.{content_of, units_of};
ghost use Rattle.aper_fields.specs.widths.Ends.{Ends};
ghost use Rattle.aper_fields.specs.widths.Widths.{units_width, lengths_width};

use crate::lengths::{PART_UNITS, extent_width};
use crate::strings::{Units, in_size};
use crate::widths::numbers::{after_extension, after_number};
use crate::widths::place::{Place, padded, passed};
use asn1_syntax::types::Size;

/// The place after the units of a string.
fn after_units(place: Place, units: Units<'_>) -> Place
    ensures { Ends place result (λ p. unit_fields p (content_of units.entry) (units_of units.entry)) }
{
    passed(place, units_width(units))
}

/// How many bits the units of a string have.
fn units_width(units: Units<'_>) -> u128
    ensures value { result ≡ units_width (content_of units.entry) (length (units_of units.entry)) }
    ensures small { result < 2 ^ 67 }
{
    match units {
        Units::Bits(bits) => bits.len() as u128,
        Units::Octets(octets) | Units::Characters(octets) => 8 * octets.len() as u128,
    }
}

/// How many bits the lengths of the parts of a string have: an octet for each part of up to four times 16,384 units, and the last one.
fn lengths_width(count: usize) -> u128
    ensures value { result ≡ lengths_width count }
    ensures small { result < 2 ^ 67 }
{
    8 * (count / PART_UNITS).div_ceil(4) as u128
        + u128::from(extent_width((count % PART_UNITS) as u32))
}

/// The place after a string in parts. Each part but the last one has whole octets, so no further pad has a bit.
fn after_parts(place: Place, units: Units<'_>) -> Place
    ensures { (outside : Option Size)
        → Ends place result (λ p. all_part_fields p (content_of units.entry) outside (units_of units.entry)) }
{
    passed(
        padded(place),
        lengths_width(units.len()) + units_width(units),
    )
}

/// The place after a string in the root of its size.
#[tactic(auto, unfolding(crate::specs::widths::Ends::end_of))]
fn after_sized(place: Place, units: Units<'_>, size: Size) -> Place
    requires { in_size size (length (units_of units)) ≡ true }
    ensures { Ends place result (λ p. sized_fields p (content_of units.entry) size (units_of units.entry)) }
{
    if size.low != size.high {
        let span = u64::from(size.high - size.low);
        let length = after_number(place, span, units.len() as u64 - u64::from(size.low));
        return after_units(padded(length), units);
    }
    if size.low <= units.pad_limit() {
        return after_units(place, units);
    }
    after_units(padded(place), units)
}

/// The place after a string.
#[tactic(auto, unfolding(aper_defs::specs::Parts::string_fields))]
pub fn after_string(place: Place, units: Units<'_>, size: Option<Size>) -> Place
    ensures { Ends place result (λ p. string_fields p (content_of units.entry) size (units_of units.entry)) }
{
    let Some(size) = size else {
        return after_parts(place, units);
    };
    let begin = after_extension(place, size.extensible);
    if in_size(size, units.len()) {
        return after_sized(begin, units, size);
    }
    after_parts(begin, units)
}

/// The place after the count of members that follow.
#[tactic(auto, unfolding(aper_defs::specs::Parts::count_fields))]
pub fn after_count(place: Place, size: Option<Size>, count: usize) -> Place
    requires { count < 65536 }
    ensures { Ends place result (λ p. count_fields p size count) }
{
    let Some(size) = size else {
        return after_length(place, count);
    };
    let begin = after_extension(place, size.extensible);
    if in_size(size, count) {
        let span = u64::from(size.high - size.low);
        return after_number(begin, span, count as u64 - u64::from(size.low));
    }
    after_length(begin, count)
}

/// The place after a length determinant.
#[tactic(auto, unfolding(crate::specs::widths::Ends::end_of))]
fn after_length(place: Place, count: usize) -> Place
    requires { count < 65536 }
    ensures { (bounds : Extent) → Ends place result (λ p. asked p pad 0 ∷ asked p (extent bounds) count ∷ []) }
{
    passed(padded(place), u128::from(extent_width(count as u32)))
}
