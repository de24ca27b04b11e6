//! Values of the types that have no types inside.

ghost use Rattle.std.specs.Prelude.{◌++◌, Option, OnOk, ℤ, Bool};
ghost use Rattle.asn1_syntax.specs.declared.types.definition.Size.{Size};
ghost use Rattle.asn1_syntax.specs.types.Members.{additions_of};
ghost use Rattle.aper_values.specs.Views.{view};
ghost use Rattle.json_defs.specs.Named.{boolean, integer, enumerated, bit_string, octet_string, printable_string};
ghost use Rattle.json_defs.specs.shown_defs.Printed.{shown_as, name_shown, one_member, natural_shown};
ghost use Rattle.json_defs.specs.Members.{unknown_key};
ghost use Rattle.values_json.specs.tokens.Written.{WritesWhole};

use crate::pieces::error::PrintError;
use crate::pieces::texts::{write_bits, write_integer, write_null, write_octets, write_text};
use aper_values::value::Value;
use asn1_syntax::types::Extensible;
use gnb_types::octets::Octets;
use json::Writer;
use std::alloc::Global;

#[tactic(auto, unfolding(json_defs::specs::shown_defs::Printed::shown_as))]
pub fn write_boolean(value: &Value, out: &mut Writer) -> Result<(), PrintError>
    ensures { OnOk result (WritesWhole (shown_as boolean (view value.now)) out.old out.new) }
{
    match value {
        Value::Bool(truth) => {
            out.boolean(*truth)?;
            Ok(())
        }
        _ => write_null(out),
    }
}

#[tactic(auto, unfolding(json_defs::specs::shown_defs::Printed::shown_as))]
pub fn write_whole_number(value: &Value, out: &mut Writer) -> Result<(), PrintError>
    ensures { (low high : ℤ) (extensible : Bool) → OnOk result
        (WritesWhole (shown_as (integer low high extensible) (view value.now)) out.old out.new) }
{
    match value {
        Value::Int(number) => write_integer(*number, out),
        _ => write_null(out),
    }
}

/// How far a name is past the last.
fn write_unknown(past: u64, out: &mut Writer) -> Result<(), PrintError>
    ensures { OnOk result (WritesWhole (one_member unknown_key (natural_shown past)) out.old out.new) }
{
    out.begin_object()?;
    out.key("unknown")?;
    out.u64(past)?;
    out.end_object()?;
    Ok(())
}

/// A name by its place, or how far it is past the last.
fn write_name(names: &Extensible<Octets>, index: u32, out: &mut Writer) -> Result<(), PrintError>
    ensures { OnOk result (WritesWhole (name_shown (names.now.root ++ additions_of names.now.additions) index) out.old out.new) }
{
    let index = index as usize;
    let root = names.root.as_slice();
    if let Some(name) = root.get(index) {
        return write_text(name.as_slice(), out);
    }
    let additions = match &names.additions {
        Some(additions) => additions.as_slice(),
        None => &[],
    };
    let past = index - root.len();
    match additions.get(past) {
        Some(name) => write_text(name.as_slice(), out),
        None => write_unknown((past - additions.len()) as u64, out),
    }
}

#[tactic(auto, unfolding(json_defs::specs::shown_defs::Printed::shown_as))]
pub fn write_enumerated(
    names: &Extensible<Octets>,
    value: &Value,
    out: &mut Writer,
) -> Result<(), PrintError>
    ensures { (extensible : Bool) → OnOk result (WritesWhole
        (shown_as (enumerated names.now.root (additions_of names.now.additions) extensible) (view value.now)) out.old out.new) }
{
    match value {
        Value::Enum(index) => write_name(names, *index, out),
        _ => write_null(out),
    }
}

#[tactic(auto, unfolding(json_defs::specs::shown_defs::Printed::shown_as))]
pub fn write_bit_string(alloc: Global, value: &Value, out: &mut Writer) -> Result<(), PrintError>
    ensures { (size : Option Size) → OnOk result
        (WritesWhole (shown_as (bit_string size) (view value.now)) out.old out.new) }
{
    match value {
        Value::Bits(bits) => write_bits(alloc, bits.as_slice(), out),
        _ => write_null(out),
    }
}

#[tactic(auto, unfolding(json_defs::specs::shown_defs::Printed::shown_as))]
pub fn write_octet_string(alloc: Global, value: &Value, out: &mut Writer) -> Result<(), PrintError>
    ensures { (size : Option Size) → OnOk result
        (WritesWhole (shown_as (octet_string size) (view value.now)) out.old out.new) }
{
    match value {
        Value::Octets(octets) => write_octets(alloc, octets.as_slice(), out),
        _ => write_null(out),
    }
}

#[tactic(auto, unfolding(json_defs::specs::shown_defs::Printed::shown_as))]
pub fn write_printable_string(value: &Value, out: &mut Writer) -> Result<(), PrintError>
    ensures { (size : Option Size) → OnOk result
        (WritesWhole (shown_as (printable_string size) (view value.now)) out.old out.new) }
{
    match value {
        Value::Text(characters) => write_text(characters.as_slice(), out),
        _ => write_null(out),
    }
}
