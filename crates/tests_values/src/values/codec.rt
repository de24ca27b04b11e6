//! Values that are read and written over and over. How many, and what they cost, is measured with the variable `VALUES` (tools/bench_codec.py,
//! which gives Erlang's asn1 the same module and octets).

ghost use Rattle.std.specs.Prelude.{◌<◌, length};

use aper::{decode, encode, is_value, spelled_length};
use aper_values::value::Value;
use asn1_module::{Module, TypeId, read_module};
use gnb_types::hex::hex_bytes;
use std::alloc::Global;
use std::env;
use std::env::VarError;
use std::process::Abort;
use std::test::Fail;

/// Where `VALUES` isn't set.
const VALUES: u32 = 80;

const MODULE: &[u8] = b"M DEFINITIONS AUTOMATIC TAGS ::= BEGIN\n\
T ::= SEQUENCE {number INTEGER (0..4294967295), flag BOOLEAN, kind ENUMERATED {a, b, c}, octets OCTET STRING,\n\
  list SEQUENCE (SIZE (1..8)) OF INTEGER (0..255), name PrintableString (SIZE (1..150, ...)) OPTIONAL, ...}\n\
END\n";

/// Values of T as Erlang's asn1 spells them.
const SPELLED: [&str; 8] = [
    "400080080000000000000000000000005A",
    "509E37201000000000000000010000000000000001200101030076616C75652031",
    "60013C6EC01800000000000000020000000000000002000000000000000240020202030076616C75652032",
    "6001DAA5002000000000000000030000000000000003000000000000000300000000000000036003030303030076616C75652033",
    "600278DCA0080000000000000004800404040404030076616C75652034",
    "60031713401000000000000000050000000000000005A005050505050500005A",
    "6003B54A8018000000000000000600000000000000060000000000000006C006060606060606030076616C75652036",
    "6004538120200000000000000007000000000000000700000000000000070000000000000007E00707070707070707030076616C75652037",
];

#[derive(Clone, Copy)]
enum Way {
    Read,
    Written,
}

/// Whether octets are read so many times as a value.
fn is_read(alloc: Global, m: &Module, id: TypeId, octets: &[u8], times: u32) -> bool
    requires { id.number < length m.now.nodes }
{
    for _ in 0..times {
        match decode(alloc, m, id, octets) {
            Ok(value) => drop(value),
            Err(error) => {
                drop(error);
                return false;
            }
        }
    }
    true
}

/// Whether a value is written so many times as these octets.
fn is_written(
    alloc: Global,
    m: &Module,
    id: TypeId,
    value: &Value,
    octets: &[u8],
    times: u32,
) -> bool
    requires { id.number < length m.now.nodes }
{
    if !is_value(m, id, value) {
        return false;
    }
    if spelled_length(m, id, value) > 131_072 {
        return false;
    }
    for _ in 0..times {
        match encode(alloc, m, id, value) {
            Ok(written) if written.as_slice() == octets => {}
            _ => return false,
        }
    }
    true
}

/// Whether the value that octets spell is written so many times as them.
fn is_written_again(alloc: Global, m: &Module, id: TypeId, octets: &[u8], times: u32) -> bool
    requires { id.number < length m.now.nodes }
{
    match decode(alloc, m, id, octets) {
        Ok(value) => {
            let is_it = is_written(alloc, m, id, &value, octets, times);
            drop(value);
            is_it
        }
        Err(error) => {
            drop(error);
            false
        }
    }
}

fn goes(alloc: Global, m: &Module, way: Way, hex: &str, times: u32) -> bool {
    let Some(id) = m.find(b"T") else {
        return false;
    };
    let Ok(octets) = hex_bytes(alloc, hex.as_bytes()) else {
        return false;
    };
    match way {
        Way::Read => is_read(alloc, m, id, octets.as_slice(), times),
        Way::Written => is_written_again(alloc, m, id, octets.as_slice(), times),
    }
}

fn all_go(rt: &impl Abort, alloc: Global, way: Way, times: u32) {
    match read_module(alloc, MODULE) {
        Ok((module, _)) => each_goes(rt, alloc, &module, way, times),
        Err(_) => assert!(rt; false),
    }
}

fn each_goes(rt: &impl Abort, alloc: Global, m: &Module, way: Way, times: u32) {
    for &hex in &SPELLED {
        assert!(rt; goes(alloc, m, way, hex, times), "{hex}");
    }
}

/// How many times each value of the table goes, by what `VALUES` says.
fn times(rt: &HostRuntime) -> Result<u32, Fail> {
    let text = match env::var(rt, "VALUES") {
        Err(VarError::NotPresent) => return Ok(VALUES / 8),
        read => read?,
    };
    Ok(text.as_str().parse::<u32>()? / 8)
}

#[test]
fn reads_values(rt: HostRuntime) -> Result<(), Fail> {
    let times = times(&rt)?;
    all_go(&rt, rt.alloc(), Way::Read, times);
    Ok(())
}

#[test]
fn writes_values(rt: HostRuntime) -> Result<(), Fail> {
    let times = times(&rt)?;
    all_go(&rt, rt.alloc(), Way::Written, times);
    Ok(())
}
