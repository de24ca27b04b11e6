//! Octets that spell nothing, and their first wrong fields.

ghost use Rattle.std.specs.Prelude.{◌<◌, ◌^◌, length};

use crate::values::vectors::{REFUSED, Refusal, TYPES};
use aper::{DecodeError, Reason, decode};
use aper_values::value::Value;
use asn1_module::{Module, TypeId, read_module};
use gnb_types::hex::hex_bytes;
use std::alloc::{AllocError, Global};
use std::process::Abort;

fn is_fault(read: &Result<Value, DecodeError>, wrong: (u64, Reason, &[u8])) -> bool {
    match read {
        Err(DecodeError::Refused { bit, reason, path }) => {
            *bit == wrong.0 && *reason == wrong.1 && path.as_slice() == wrong.2
        }
        _ => false,
    }
}

/// Whether these octets are refused at this bit, for this reason, on this way.
fn is_refused_at(
    alloc: Global,
    m: &Module,
    id: TypeId,
    octets: &[u8],
    wrong: (u64, Reason, &[u8]),
) -> bool
    requires inside { id.number < length m.now.nodes }
    requires short { length octets.now < 2 ^ 61 }
{
    let read = decode(alloc, m, id, octets);
    let is_it = is_fault(&read, wrong);
    drop(read);
    is_it
}

fn is_refused(alloc: Global, m: &Module, row: Refusal) -> bool {
    let (name, hex, bit, reason, path) = row;
    let Some(id) = m.find(name) else {
        return false;
    };
    let Ok(octets) = hex_bytes(alloc, hex.as_bytes()) else {
        return false;
    };
    let octets = octets.as_slice();
    octets.len() < 1000 && is_refused_at(alloc, m, id, octets, (bit, reason, path))
}

fn are_refused(rt: &impl Abort, alloc: Global, m: &Module) {
    for &row in &REFUSED {
        assert!(rt; is_refused(alloc, m, row), "{}", row.1);
    }
}

#[test]
fn refused(rt: HostRuntime) {
    match read_module(rt.alloc(), TYPES) {
        Ok((module, _)) => are_refused(&rt, rt.alloc(), &module),
        Err(_) => assert!(rt; false),
    }
}

/// The heads of two parts of 65,536 octets, as many zeros, and an empty part.
fn parts(alloc: Global) -> Result<Vec<u8>, AllocError> {
    let mut octets = Vec::from_elem(alloc, 0u8, 131_075)?;
    octets[0] = 0xc4;
    octets[65_537] = 0xc4;
    Ok(octets)
}

fn are_too_many(alloc: Global, m: &Module, octets: &[u8]) -> bool {
    let Some(id) = m.find(b"Any-Octets") else {
        return false;
    };
    let wrong = (524_304, Reason::TooLong, b"-".as_slice());
    octets.len() == 131_075 && is_refused_at(alloc, m, id, octets, wrong)
}

fn is_too_long(alloc: Global, octets: &[u8]) -> bool {
    match read_module(alloc, TYPES) {
        Ok((module, _)) => are_too_many(alloc, &module, octets),
        Err(_) => false,
    }
}

/// Two parts of 65,536 octets and an empty one: the second one passes octet 131,072.
#[test]
fn too_long(rt: HostRuntime) -> Result<(), AllocError> {
    let octets = parts(rt.alloc())?;
    assert!(rt; is_too_long(rt.alloc(), octets.as_slice()));
    Ok(())
}
