//! Whole values, read and written.

ghost use Rattle.std.specs.Prelude.{◌<◌, ◌^◌, length};

use crate::values::vectors::{MESSAGES, NUMBERS, Row, STRINGS, STRUCTURES, TYPES, WORKED};
use aper::{decode, encode, is_value, spelled_length};
use aper_values::value::Value;
use asn1_module::{Module, TypeId, read_module};
use gnb_types::hex::hex_bytes;
use gnb_types::octets::Octets;
use profile::PROFILE_TEXT;
use std::alloc::{AllocError, Global};
use std::process::Abort;

/// The octets that a value is written as.
fn written(alloc: Global, m: &Module, id: TypeId, value: &Value) -> Option<Octets>
    requires { id.number < length m.now.nodes }
{
    if !is_value(m, id, value) {
        return None;
    }
    if spelled_length(m, id, value) > 131_072 {
        return None;
    }
    encode(alloc, m, id, value).ok()
}

fn is_written(alloc: Global, m: &Module, id: TypeId, value: &Value, octets: &[u8]) -> bool
    requires { id.number < length m.now.nodes }
{
    match written(alloc, m, id, value) {
        Some(found) => found.as_slice() == octets,
        None => false,
    }
}

fn is_shown(alloc: Global, value: &Value, shown: &str) -> bool {
    match format!(in alloc; "{value:?}") {
        Ok(text) => text.as_str() == shown,
        Err(_) => false,
    }
}

/// Whether these octets are read as a value that is shown so and is written as them.
fn is_read_and_written(alloc: Global, m: &Module, id: TypeId, octets: &[u8], shown: &str) -> bool
    requires inside { id.number < length m.now.nodes }
    requires short { length octets.now < 2 ^ 61 }
{
    match decode(alloc, m, id, octets) {
        Ok(value) => {
            let is_it = is_shown(alloc, &value, shown) && is_written(alloc, m, id, &value, octets);
            drop(value);
            is_it
        }
        Err(error) => {
            drop(error);
            false
        }
    }
}

fn is_spelling(alloc: Global, m: &Module, row: Row) -> bool {
    let (name, hex, shown) = row;
    let Some(id) = m.find(name) else {
        return false;
    };
    let Ok(octets) = hex_bytes(alloc, hex.as_bytes()) else {
        return false;
    };
    let octets = octets.as_slice();
    octets.len() < 1000 && is_read_and_written(alloc, m, id, octets, shown)
}

fn are_spellings(rt: &impl Abort, alloc: Global, m: &Module, rows: &[Row]) {
    for &row in rows {
        assert!(rt; is_spelling(alloc, m, row), "{}", row.1);
    }
}

/// Each of these is a spelling by the types of a text.
fn are_spelled(rt: &impl Abort, alloc: Global, text: &[u8], rows: &[Row]) {
    match read_module(alloc, text) {
        Ok((module, _)) => are_spellings(rt, alloc, &module, rows),
        Err(_) => assert!(rt; false),
    }
}

#[test]
fn spellings(rt: HostRuntime) {
    let alloc = rt.alloc();
    are_spelled(&rt, alloc, TYPES, &WORKED);
    are_spelled(&rt, alloc, TYPES, &NUMBERS);
    are_spelled(&rt, alloc, TYPES, &STRINGS);
    are_spelled(&rt, alloc, TYPES, &STRUCTURES);
    are_spelled(&rt, alloc, PROFILE_TEXT, &MESSAGES);
}

/// Whether a value is so many octets of zeros.
fn has_zeros(value: &Value, count: usize) -> bool {
    match value {
        Value::Octets(zeros) => {
            zeros.len() == count && zeros.as_slice().iter().all(|octet| *octet == 0)
        }
        _ => false,
    }
}

/// Whether these octets are read as so many octets of zeros, which are written as them.
fn is_zeros(alloc: Global, m: &Module, id: TypeId, octets: &[u8], count: usize) -> bool
    requires inside { id.number < length m.now.nodes }
    requires short { length octets.now < 2 ^ 61 }
{
    match decode(alloc, m, id, octets) {
        Ok(value) => {
            let is_it = has_zeros(&value, count) && is_written(alloc, m, id, &value, octets);
            drop(value);
            is_it
        }
        Err(error) => {
            drop(error);
            false
        }
    }
}

/// The head of a part of 16,384 octets, as many zeros, and an empty part.
fn parts(alloc: Global) -> Result<Vec<u8>, AllocError> {
    let mut octets = Vec::from_elem(alloc, 0u8, 16_386)?;
    octets[0] = 0xc1;
    Ok(octets)
}

fn are_zeros(alloc: Global, m: &Module, octets: &[u8]) -> bool {
    let Some(id) = m.find(b"Any-Octets") else {
        return false;
    };
    octets.len() == 16_386 && is_zeros(alloc, m, id, octets, 16_384)
}

fn is_in_parts(alloc: Global, octets: &[u8]) -> bool {
    match read_module(alloc, TYPES) {
        Ok((module, _)) => are_zeros(alloc, &module, octets),
        Err(_) => false,
    }
}

/// 16,384 octets come in a part of so many and an empty one.
#[test]
fn in_parts(rt: HostRuntime) -> Result<(), AllocError> {
    let octets = parts(rt.alloc())?;
    assert!(rt; is_in_parts(rt.alloc(), octets.as_slice()));
    Ok(())
}
