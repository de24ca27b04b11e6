//! Values of the types that have no types inside.

ghost use Rattle.std.specs.Prelude.{◌≡◌};
ghost use Rattle.aper_values.specs.Views.{view};
ghost use Rattle.serde_json.specs.View.{view as json};
ghost use Rattle.json_defs.specs.Named.{boolean, integer, bit_string, octet_string, printable_string};
ghost use Rattle.json_defs.specs.Readings.{value_of, raw_in};
ghost use Rattle.json_defs.specs.Demands.{demands, raw_demands};
ghost use Rattle.json_fields.specs.simple.Answers.{Reads};

use crate::members::kinds::{bits_in, integer_in, octets_in};
use crate::simple::refusal::{Refusal, range, shape};
use aper::measuring::bounds::{are_printable, is_length_of, is_number_of};
use aper_values::value::Value;
use asn1_syntax::types::Size;
use gnb_types::octets::Octets;
use serde_json::Value as Json;
use std::alloc::Global;

#[tactic(auto, unfolding(json_defs::specs::Demands::demands, json_defs::specs::Readings::value_of))]
pub fn boolean_in<'m>(alloc: Global, d: &Json) -> Result<Value, Refusal<'m>>
    ensures { Reads (λ p. demands p boolean (json d.now)) (λ v. view v ≡ value_of boolean (json d.now)) result }
{
    match d {
        Json::Bool(truth) => Ok(Value::Bool(*truth)),
        _ => Err(shape(alloc)),
    }
}

#[tactic(auto, unfolding(json_defs::specs::Demands::demands, json_defs::specs::Readings::value_of))]
pub fn whole_number_in<'m>(
    alloc: Global,
    low: i128,
    high: i128,
    extensible: bool,
    d: &Json,
) -> Result<Value, Refusal<'m>>
    ensures { Reads (λ p. demands p (integer low high extensible) (json d.now))
        (λ v. view v ≡ value_of (integer low high extensible) (json d.now)) result }
{
    let Some(number) = integer_in(d) else {
        return Err(shape(alloc));
    };
    if !is_number_of(low, high, extensible, number) {
        return Err(range(alloc));
    }
    Ok(Value::Int(number))
}

#[tactic(auto, unfolding(json_defs::specs::Demands::demands, json_defs::specs::Readings::value_of))]
pub fn bit_string_in<'m>(alloc: Global, size: Option<Size>, d: &Json) -> Result<Value, Refusal<'m>>
    ensures { Reads (λ p. demands p (bit_string size) (json d.now))
        (λ v. view v ≡ value_of (bit_string size) (json d.now)) result }
{
    let Some(bits) = bits_in(alloc, d)? else {
        return Err(shape(alloc));
    };
    if !is_length_of(size, bits.len()) {
        return Err(range(alloc));
    }
    Ok(Value::Bits(bits))
}

#[tactic(auto, unfolding(json_defs::specs::Demands::demands, json_defs::specs::Readings::value_of))]
pub fn octet_string_in<'m>(
    alloc: Global,
    size: Option<Size>,
    d: &Json,
) -> Result<Value, Refusal<'m>>
    ensures { Reads (λ p. demands p (octet_string size) (json d.now))
        (λ v. view v ≡ value_of (octet_string size) (json d.now)) result }
{
    let Some(octets) = octets_in(alloc, d)? else {
        return Err(shape(alloc));
    };
    if !is_length_of(size, octets.len()) {
        return Err(range(alloc));
    }
    Ok(Value::Octets(octets))
}

#[tactic(auto, unfolding(json_defs::specs::Demands::demands, json_defs::specs::Readings::value_of))]
pub fn printable_string_in<'m>(
    alloc: Global,
    size: Option<Size>,
    d: &Json,
) -> Result<Value, Refusal<'m>>
    ensures { Reads (λ p. demands p (printable_string size) (json d.now))
        (λ v. view v ≡ value_of (printable_string size) (json d.now)) result }
{
    let Some(text) = d.as_str() else {
        return Err(shape(alloc));
    };
    let characters = text.as_bytes();
    if !is_length_of(size, characters.len()) {
        return Err(range(alloc));
    }
    if !are_printable(characters) {
        return Err(range(alloc));
    }
    Ok(Value::Text(Octets::from_slice(alloc, characters)?))
}

/// Octets of what isn't known: 1 to 16,383.
pub fn raw_in<'m>(alloc: Global, d: &Json) -> Result<Value, Refusal<'m>>
    ensures { Reads (λ p. raw_demands p (json d.now)) (λ v. view v ≡ raw_in (json d.now)) result }
{
    let Some(octets) = octets_in(alloc, d)? else {
        return Err(shape(alloc));
    };
    if octets.is_empty() || octets.len() > 16383 {
        return Err(range(alloc));
    }
    Ok(Value::Raw(octets))
}
