//! Objects.

ghost use Rattle.std.specs.Prelude.{[], ◌∷◌, OnOk};
ghost use Rattle.json.specs.Token.{key, string};
ghost use Rattle.aper_values.specs.Views.{view};
ghost use Rattle.json_defs.specs.Members.{criticalities};
ghost use Rattle.json_defs.specs.shown_defs.Printed.{past_shown, name_at};
ghost use Rattle.values_json.specs.tokens.Written.{Adds, WritesWhole};
ghost use Rattle.values_json.specs.pieces.Bodies.{contents_key, body_begins};

use crate::pieces::error::PrintError;
use crate::pieces::texts::write_raw;
use aper_values::value::Value;
use json::Writer;
use std::alloc::Global;

/// What comes so far past the last that has a name.
pub fn write_past(
    alloc: Global,
    past: u64,
    value: &Value,
    out: &mut Writer,
) -> Result<(), PrintError>
    ensures { OnOk result (WritesWhole (past_shown past (view value.now)) out.old out.new) }
{
    out.begin_object()?;
    out.key("...")?;
    out.begin_array()?;
    out.u64(past)?;
    write_raw(alloc, value, out)?;
    out.end_array()?;
    out.end_object()?;
    Ok(())
}

/// A criticality by its name. The texts that are known when this is compiled cost least.
fn write_criticality(criticality: u8, out: &mut Writer) -> Result<(), PrintError>
    ensures { OnOk result (Adds (string (name_at criticalities criticality) ∷ []) out.old out.new) }
{
    match criticality {
        0 => out.string("reject")?,
        1 => out.string("ignore")?,
        2 => out.string("notify")?,
        _ => out.string("")?,
    }
    Ok(())
}

fn write_contents_key(is_known: bool, out: &mut Writer) -> Result<(), PrintError>
    ensures { OnOk result (Adds (key (contents_key is_known) ∷ []) out.old out.new) }
{
    if is_known {
        out.key("value")?;
    } else {
        out.key("raw")?;
    }
    Ok(())
}

/// The members of an information element, or of the body of a message, up to its contents: what has a number is known by this key.
#[inline(always)]
pub fn begin_body(
    key: &str,
    number: u64,
    criticality: u8,
    is_known: bool,
    out: &mut Writer,
) -> Result<(), PrintError>
    ensures { OnOk result (Adds (body_begins key.now number criticality is_known) out.old out.new) }
{
    out.begin_object()?;
    out.key("criticality")?;
    write_criticality(criticality, out)?;
    out.key(key)?;
    out.u64(number)?;
    write_contents_key(is_known, out)
}
