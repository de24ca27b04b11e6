//! Values of a module's types as JSON (RFC 8259): a value from its JSON text or why there is none, and the one text of a value.
#![tactic(auto)]

ghost use Rattle.std.specs.Prelude.{◌≡◌, ◌<◌, length, IfOk, IfSome};
ghost use Rattle.serde_json.specs.Written.{compact_text};
ghost use Rattle.aper_values.specs.Views.{view};
ghost use Rattle.json_defs.specs.Members.{same_text};
ghost use Rattle.json_defs.specs.shown_defs.Printed.{shown_as};
ghost use Rattle.json_defs.specs.type_defs.Types.{named};
ghost use Rattle.values_json.specs.Texts.{IsNoJson, IsReadAgain, IsTextOf, HasFault, OnNotJson, OnFault};

mod error;
pub mod order;
pub mod pieces;
pub mod printing;
mod reading;
pub mod tokens;

use crate::printing::write_value;
use crate::reading::{answered, tree_of};
use aper::is_value;
use aper_values::value::Value;
use asn1_module::{Module, TypeId};
pub use error::JsonError;
use gnb_types::octets::{Memory, Octets};
use json::Writer;
use json_read::guess::likely_value;
use json_read::json_reading::value_in;
use std::alloc::Global;

fn is_same(text: &[u8], other: &[u8]) -> bool
    ensures { result ≡ same_text text.now other.now }
{
    text == other
}

/// The value of a type of a module whose printed text this is, where it is found to be one.
fn printed_value(alloc: Global, m: &Module, id: TypeId, text: &[u8]) -> Option<Value>
    requires { id.number < length m.now.nodes }
    ensures { IfSome result (λ v. IsTextOf (named m.now id.number) text.now (view v)) }
{
    // A module that was read has types within the profile's bounds alone, of which the laws of JSON speak.
    let _ = m.name();
    let value = likely_value(alloc, m, id, text)?;
    if !is_value(m, id, &value) {
        return None;
    }
    let Ok(printed) = json_of_value(alloc, m, id, &value) else {
        return None;
    };
    if is_same(printed.as_slice(), text) {
        Some(value)
    } else {
        None
    }
}

/// The value of a type of a module that a JSON text shows. A text as values are printed is read at once, and any other as a tree.
pub fn value_from_json(
    alloc: Global,
    m: &Module,
    id: TypeId,
    text: &[u8],
) -> Result<Value, JsonError>
    requires { id.number < length m.now.nodes }
    ensures value { IfOk result (λ v. IsTextOf (named m.now id.number) text.now (view v)) }
    ensures not_json { OnNotJson result (IsNoJson text.now) }
    ensures fault { OnFault result (HasFault (named m.now id.number) text.now) }
{
    if let Some(value) = printed_value(alloc, m, id, text) {
        return Ok(value);
    }
    let d = tree_of(alloc, text)?;
    let asked = value_in(alloc, m, id, &d);
    drop(d);
    answered(alloc, asked)
}

/// The room that a text is begun with. Texts of most messages are shorter.
const ROOM: usize = 512;

/// The compact text of the JSON that a value of a type of a module is printed as.
pub fn json_of_value(alloc: Global, m: &Module, id: TypeId, value: &Value) -> Result<Octets, Memory>
    requires { id.number < length m.now.nodes }
    ensures text { IfOk result
        (λ text. text ≡ compact_text (shown_as (named m.now id.number) (view value.now))) }
    ensures again { IfOk result
        (λ text. IsReadAgain text (shown_as (named m.now id.number) (view value.now))) }
{
    let mut out = Writer::new(Vec::with_capacity(alloc, ROOM)?);
    match write_value(alloc, m, id, value, &mut out) {
        Ok(()) => Ok(Octets::from_vec(out.into_inner())),
        Err(_) => Err(Memory::told()),
    }
}
