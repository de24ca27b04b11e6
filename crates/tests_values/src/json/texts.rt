//! Values as JSON, by the texts that another reading of the specification prints: what is printed of octets, what is guessed of a text, and octets that are no text.

ghost use Rattle.std.specs.Prelude.{◌<◌, ◌^◌, length};

use crate::json::vectors::{EXTENDED, Row, SHOWN, TYPES};
use aper::decode;
use asn1_module::{Module, TypeId, read_module};
use gnb_types::hex::hex_bytes;
use json_read::guess::likely_value;
use std::alloc::Global;
use std::process::Abort;
use std::test::Fail;
use values_json::{JsonError, json_of_value, value_from_json};

/// Whether the value of these octets has this text.
fn has_text(alloc: Global, m: &Module, id: TypeId, octets: &[u8], text: &[u8]) -> bool
    requires inside { id.number < length m.now.nodes }
    requires short { length octets.now < 2 ^ 61 }
{
    let Ok(value) = decode(alloc, m, id, octets) else {
        return false;
    };
    match json_of_value(alloc, m, id, &value) {
        Ok(printed) => printed.as_slice() == text,
        Err(_) => false,
    }
}

fn is_printed(alloc: Global, m: &Module, row: Row) -> bool {
    let (name, hex, text) = row;
    let Some(id) = m.find(name) else {
        return false;
    };
    let Ok(octets) = hex_bytes(alloc, hex) else {
        return false;
    };
    let octets = octets.as_slice();
    octets.len() < 1000 && has_text(alloc, m, id, octets, text)
}

/// Whether this text is that of the value that is guessed from it.
fn is_guessed(alloc: Global, m: &Module, row: Row) -> bool {
    let (name, _, text) = row;
    let Some(id) = m.find(name) else {
        return false;
    };
    let Some(value) = likely_value(alloc, m, id, text) else {
        return false;
    };
    match json_of_value(alloc, m, id, &value) {
        Ok(printed) => printed.as_slice() == text,
        Err(_) => false,
    }
}

/// Octets that are no UTF-8 are no JSON.
fn is_no_json(alloc: Global, m: &Module, name: &[u8], text: &[u8]) -> bool {
    match m.find(name) {
        Some(id) => matches!(value_from_json(alloc, m, id, text), Err(JsonError::NotJson)),
        None => false,
    }
}

fn are_as_shown(rt: &impl Abort, alloc: Global, m: &Module) {
    for &row in SHOWN.iter().chain(&EXTENDED) {
        assert!(rt; is_printed(alloc, m, row), "{:?}", row.2);
    }
    // one that is not guessed would only be read more slowly
    for &row in &SHOWN {
        assert!(rt; is_guessed(alloc, m, row), "{:?}", row.2);
    }
    assert!(rt; is_no_json(alloc, m, b"Text", b"\"\xFF\""));
}

#[test]
fn values_of_each_form(rt: HostRuntime) -> Result<(), Fail> {
    let (module, _) = read_module(rt.alloc(), TYPES)?;
    are_as_shown(&rt, rt.alloc(), &module);
    Ok(())
}
