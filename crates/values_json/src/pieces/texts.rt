//! Texts and numbers.

ghost use Rattle.std.specs.Prelude.{◌≡◌, [], ◌∷◌, OnOk, IfOk};
ghost use Rattle.json.specs.Token.{key};
ghost use Rattle.gnb_types.specs.Hex.{hex_of};
ghost use Rattle.serde_json.specs.Data.{null, string};
ghost use Rattle.aper_values.specs.Views.{view};
ghost use Rattle.json_defs.specs.shown_defs.Printed.{integer_shown, bits_text, raw_shown};
ghost use Rattle.values_json.specs.tokens.Written.{Adds, WritesWhole};

use crate::pieces::error::PrintError;
use aper_values::value::Value;
use gnb_types::hex::hex_text;
use gnb_types::octets::{Memory, Octets};
use json::Writer;
use std::alloc::Global;
use std::str::from_utf8;

pub fn write_null(out: &mut Writer) -> Result<(), PrintError>
    ensures { OnOk result (WritesWhole null out.old out.new) }
{
    out.null()?;
    Ok(())
}

/// A text. Names of modules and the characters of a PrintableString are ASCII; octets that aren't UTF-8 are no text.
pub fn write_text(text: &[u8], out: &mut Writer) -> Result<(), PrintError>
    ensures { OnOk result (WritesWhole (string text.now) out.old out.new) }
{
    out.string(from_utf8(text)?)?;
    Ok(())
}

/// The name of a member.
pub fn write_key(name: &[u8], out: &mut Writer) -> Result<(), PrintError>
    ensures { OnOk result (Adds (key name.now ∷ []) out.old out.new) }
{
    out.key(from_utf8(name)?)?;
    Ok(())
}

/// Octets, as hexadecimal digits in upper case.
pub fn write_octets(alloc: Global, octets: &[u8], out: &mut Writer) -> Result<(), PrintError>
    ensures { OnOk result (WritesWhole (string (hex_of octets.now)) out.old out.new) }
{
    let text = hex_text(alloc, octets)?;
    write_text(text.as_slice(), out)
}

fn bits_text(alloc: Global, bits: &[bool]) -> Result<Octets, Memory>
    ensures { IfOk result (λ text. text ≡ bits_text bits.now) }
{
    let mut text = Octets::with_capacity(alloc, bits.len())?;
    for bit in bits {
        text.push(if *bit { b'1' } else { b'0' })?;
    }
    Ok(text)
}

/// Bits, as a text of 0 and 1.
pub fn write_bits(alloc: Global, bits: &[bool], out: &mut Writer) -> Result<(), PrintError>
    ensures { OnOk result (WritesWhole (string (bits_text bits.now)) out.old out.new) }
{
    let text = bits_text(alloc, bits)?;
    write_text(text.as_slice(), out)
}

/// A number. Those of a module's types have 64 bits; others are no number of JSON here.
pub fn write_integer(number: i128, out: &mut Writer) -> Result<(), PrintError>
    ensures { OnOk result (WritesWhole (integer_shown number) out.old out.new) }
{
    if let Ok(number) = u64::try_from(number) {
        out.u64(number)?;
        return Ok(());
    }
    let Ok(number) = i64::try_from(number) else {
        return Err(PrintError);
    };
    out.i64(number)?;
    Ok(())
}

/// Octets of what isn't known.
pub fn write_raw(alloc: Global, value: &Value, out: &mut Writer) -> Result<(), PrintError>
    ensures { OnOk result (WritesWhole (raw_shown (view value.now)) out.old out.new) }
{
    match value {
        Value::Raw(octets) => write_octets(alloc, octets.as_slice(), out),
        _ => write_null(out),
    }
}
