//! Values of the types that have no types inside. Each call answers the place after a value's fields, where they are put from a place on,
//! or none where the value isn't one of the type.

ghost use Rattle.std.specs.Prelude.{◌≡◌, ◌<◌, ◌^◌, true, Option};
ghost use Rattle.std.specs.Int.Signed.{le_z};
ghost use Rattle.asn1_syntax.specs.declared.types.definition.Size.{Size};
ghost use Rattle.aper_defs.specs.Trees.{boolean, integer, enumerated, bit_string, octet_string, printable_string};
ghost use Rattle.aper_defs.specs.Values.{octets};
ghost use Rattle.aper_defs.specs.Numbers.{above};
ghost use Rattle.aper_values.specs.Views.{view};
ghost use Rattle.aper.specs.measuring.Measured.{ValueMeasured};

use crate::measuring::bounds::{are_printable, is_index_of, is_length_of, is_number_of};
use aper_fields::strings::Units;
use aper_fields::widths::numbers::{after_index, after_integer};
use aper_fields::widths::place::{Place, passed};
use aper_fields::widths::strings::after_string;
use aper_values::value::Value;
use asn1_syntax::types::Size;

#[tactic(auto, unfolding(aper_defs::specs::Layouts::layout, aper_defs::specs::Membership::Has, aper_fields::specs::widths::Ends::end_of))]
pub fn boolean_end(value: &Value, place: Place) -> Option<Place>
    ensures { ValueMeasured boolean (view value.now) place result }
{
    match value {
        Value::Bool(_) => Some(passed(place, 1)),
        _ => None,
    }
}

#[tactic(auto, unfolding(aper_defs::specs::Layouts::layout, aper_defs::specs::Membership::Has))]
pub fn integer_end(
    low: i128,
    high: i128,
    extensible: bool,
    value: &Value,
    place: Place,
) -> Option<Place>
    requires order { le_z low high ≡ true }
    requires span { above low high < 2 ^ 64 }
    ensures { ValueMeasured (integer low high extensible) (view value.now) place result }
{
    match value {
        Value::Int(number) => {
            if !is_number_of(low, high, extensible, *number) {
                return None;
            }
            Some(after_integer(place, low, high, extensible, *number))
        }
        _ => None,
    }
}

#[tactic(auto, unfolding(aper_defs::specs::Layouts::layout, aper_defs::specs::Membership::Has))]
pub fn enumerated_end(names: usize, extensible: bool, value: &Value, place: Place) -> Option<Place>
    ensures { ValueMeasured (enumerated names extensible) (view value.now) place result }
{
    match value {
        Value::Enum(index) => {
            let index = *index as usize;
            if !is_index_of(names, extensible, index) {
                return None;
            }
            Some(after_index(place, names, extensible, index))
        }
        _ => None,
    }
}

#[tactic(auto, unfolding(aper_defs::specs::Layouts::layout, aper_defs::specs::Membership::Has))]
pub fn bit_string_end(size: Option<Size>, value: &Value, place: Place) -> Option<Place>
    ensures { ValueMeasured (bit_string size) (view value.now) place result }
{
    match value {
        Value::Bits(bits) => {
            if !is_length_of(size, bits.len()) {
                return None;
            }
            Some(after_string(place, Units::Bits(bits.as_slice()), size))
        }
        _ => None,
    }
}

/// Octets, whether a string of this size has so many.
#[tactic(auto, unfolding(aper_defs::specs::Layouts::layout, aper_defs::specs::Membership::Has))]
fn octets_end(size: Option<Size>, contents: &[u8], place: Place) -> Option<Place>
    ensures { ValueMeasured (octet_string size) (octets contents.now) place result }
{
    if !is_length_of(size, contents.len()) {
        return None;
    }
    Some(after_string(place, Units::Octets(contents), size))
}

#[tactic(auto, unfolding(aper_defs::specs::Layouts::layout, aper_defs::specs::Membership::Has))]
pub fn octet_string_end(size: Option<Size>, value: &Value, place: Place) -> Option<Place>
    ensures { ValueMeasured (octet_string size) (view value.now) place result }
{
    match value {
        Value::Octets(octets) => octets_end(size, octets.as_slice(), place),
        _ => None,
    }
}

#[tactic(auto, unfolding(aper_defs::specs::Layouts::layout, aper_defs::specs::Membership::Has))]
pub fn printable_string_end(size: Option<Size>, value: &Value, place: Place) -> Option<Place>
    ensures { ValueMeasured (printable_string size) (view value.now) place result }
{
    match value {
        Value::Text(characters) => {
            let text = characters.as_slice();
            if !is_length_of(size, text.len()) || !are_printable(text) {
                return None;
            }
            Some(after_string(place, Units::Characters(text), size))
        }
        _ => None,
    }
}
