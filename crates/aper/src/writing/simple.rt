//! Values of the types that have no types inside.

ghost use Rattle.std.specs.Prelude.{◌≡◌, ◌<◌, ◌≤◌, ◌^◌, true, false, OnOk};
ghost use Rattle.std.specs.Int.Signed.{le_z};
ghost use Rattle.aper_defs.specs.Trees.{boolean, integer, enumerated, bit_string, octet_string, printable_string};
ghost use Rattle.aper_defs.specs.Numbers.{above};
ghost use Rattle.aper_values.specs.Views.{view};
ghost use Rattle.aper_fields.specs.members.Membership.{IsValue};
ghost use Rattle.aper_fields.specs.members.Followed.{ValueFollows};

use aper_fields::fields::put_flag;
use aper_fields::numbers::{put_index, put_integer};
use aper_fields::strings::{Units, put_string};
use aper_values::value::Value;
use asn1_syntax::types::Size;
use bits_core::writer::BitWriter;
use gnb_types::items::Memory;

#[tactic(auto, unfolding(aper_defs::specs::Layouts::layout, aper_defs::specs::Membership::Has))]
pub fn put_boolean(out: &mut BitWriter, value: &Value) -> Result<(), Memory>
    requires { IsValue boolean (view value.now) }
    ensures going { OnOk result (out.new.failed ≡ false) }
    ensures follows { OnOk result (ValueFollows out.old out.new boolean (view value.now)) }
{
    match value {
        Value::Bool(bit) => Ok(put_flag(out, *bit)?),
        _ => unreachable!(),
    }
}

#[tactic(auto, unfolding(aper_defs::specs::Layouts::layout, aper_defs::specs::Membership::Has))]
pub fn put_whole_number(
    out: &mut BitWriter,
    low: i128,
    high: i128,
    extensible: bool,
    value: &Value,
) -> Result<(), Memory>
    requires order { le_z low high ≡ true }
    requires span { above low high < 2 ^ 64 }
    requires member { IsValue (integer low high extensible) (view value.now) }
    requires going { out.old.failed ≡ false }
    ensures going { OnOk result (out.new.failed ≡ false) }
    ensures follows { OnOk result
        (ValueFollows out.old out.new (integer low high extensible) (view value.now)) }
{
    match value {
        Value::Int(number) => Ok(put_integer(out, low, high, extensible, *number)?),
        _ => unreachable!(),
    }
}

#[tactic(auto, unfolding(aper_defs::specs::Layouts::layout, aper_defs::specs::Membership::Has))]
pub fn put_enumerated(
    out: &mut BitWriter,
    names: usize,
    extensible: bool,
    value: &Value,
) -> Result<(), Memory>
    requires names { 1 ≤ names }
    requires member { IsValue (enumerated names extensible) (view value.now) }
    requires going { out.old.failed ≡ false }
    ensures going { OnOk result (out.new.failed ≡ false) }
    ensures follows { OnOk result
        (ValueFollows out.old out.new (enumerated names extensible) (view value.now)) }
{
    match value {
        Value::Enum(index) => Ok(put_index(out, names, extensible, *index as usize)?),
        _ => unreachable!(),
    }
}

#[tactic(auto, unfolding(aper_defs::specs::Layouts::layout, aper_defs::specs::Membership::Has))]
pub fn put_bit_string(out: &mut BitWriter, size: Option<Size>, value: &Value) -> Result<(), Memory>
    requires member { IsValue (bit_string size) (view value.now) }
    requires going { out.old.failed ≡ false }
    ensures going { OnOk result (out.new.failed ≡ false) }
    ensures follows { OnOk result (ValueFollows out.old out.new (bit_string size) (view value.now)) }
{
    match value {
        Value::Bits(bits) => Ok(put_string(out, Units::Bits(bits.as_slice()), size)?),
        _ => unreachable!(),
    }
}

#[tactic(auto, unfolding(aper_defs::specs::Layouts::layout, aper_defs::specs::Membership::Has))]
pub fn put_octet_string(
    out: &mut BitWriter,
    size: Option<Size>,
    value: &Value,
) -> Result<(), Memory>
    requires member { IsValue (octet_string size) (view value.now) }
    requires going { out.old.failed ≡ false }
    ensures going { OnOk result (out.new.failed ≡ false) }
    ensures follows { OnOk result (ValueFollows out.old out.new (octet_string size) (view value.now)) }
{
    match value {
        Value::Octets(octets) => Ok(put_string(out, Units::Octets(octets.as_slice()), size)?),
        _ => unreachable!(),
    }
}

#[tactic(auto, unfolding(aper_defs::specs::Layouts::layout, aper_defs::specs::Membership::Has))]
pub fn put_printable_string(
    out: &mut BitWriter,
    size: Option<Size>,
    value: &Value,
) -> Result<(), Memory>
    requires member { IsValue (printable_string size) (view value.now) }
    requires going { out.old.failed ≡ false }
    ensures going { OnOk result (out.new.failed ≡ false) }
    ensures follows { OnOk result
        (ValueFollows out.old out.new (printable_string size) (view value.now)) }
{
    match value {
        Value::Text(characters) => {
            Ok(put_string(out, Units::Characters(characters.as_slice()), size)?)
        }
        _ => unreachable!(),
    }
}
