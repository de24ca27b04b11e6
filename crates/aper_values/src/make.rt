//! Values from their parts, so that a contract says what each is seen as.

ghost use Rattle.std.specs.Prelude.{◌≡◌, IfOk};
ghost use Rattle.aper_defs.specs.Values as seen;
ghost use Rattle.aper_values.specs.Views.{view, values_view, options_view, ies_view};

use crate::value::{Ies, OptValues, Value, Values};
use gnb_types::bits::Bits;
use gnb_types::items::Memory;
use gnb_types::octets::Octets;
use std::alloc::Global;

pub fn truth(b: bool) -> Value
    ensures { view result ≡ seen.truth b }
{
    Value::Bool(b)
}

pub fn integer(number: i128) -> Value
    ensures { view result ≡ seen.number number }
{
    Value::Int(number)
}

/// A name, by its place.
pub fn enumeral(index: u32) -> Value
    ensures { view result ≡ seen.enumeral index }
{
    Value::Enum(index)
}

pub fn bit_string(bits: Bits) -> Value
    ensures { view result ≡ seen.bits bits }
{
    Value::Bits(bits)
}

pub fn octet_string(octets: Octets) -> Value
    ensures { view result ≡ seen.octets octets }
{
    Value::Octets(octets)
}

pub fn printable_string(characters: Octets) -> Value
    ensures { view result ≡ seen.text characters }
{
    Value::Text(characters)
}

/// A SEQUENCE of these components and additions.
pub fn components(root: OptValues, additions: OptValues) -> Value
    ensures { view result ≡ seen.components (options_view root.items) (options_view additions.items) }
{
    Value::Seq { root, additions }
}

/// A CHOICE of this alternative.
pub fn chosen(alloc: Global, index: u32, body: Value) -> Result<Value, Memory>
    ensures { IfOk result (λ v. view v ≡ seen.chosen index (view body)) }
{
    Ok(Value::Choice(index, Box::new(alloc, body)?))
}

/// A SEQUENCE OF these members.
pub fn listed(members: Values) -> Value
    ensures { view result ≡ seen.list (values_view members.items) }
{
    Value::List(members)
}

/// A container of these information elements.
pub fn elements(ies: Ies) -> Value
    ensures { view result ≡ seen.elements (ies_view ies.items) }
{
    Value::Ies(ies)
}

/// A Protocol-PDU.
pub fn message(
    alloc: Global,
    outcome: u32,
    code: u8,
    criticality: u8,
    body: Value,
) -> Result<Value, Memory>
    ensures { IfOk result (λ v. view v ≡ seen.message outcome code criticality (view body)) }
{
    Ok(Value::Pdu {
        outcome,
        code,
        criticality,
        body: Box::new(alloc, body)?,
    })
}

/// Octets of something that isn't known.
pub fn raw(octets: Octets) -> Value
    ensures { view result ≡ seen.raw octets }
{
    Value::Raw(octets)
}
