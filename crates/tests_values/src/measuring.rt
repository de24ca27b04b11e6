//! How many octets worked spellings have, and values that are none of their types.

use aper::measuring::simple::{
    bit_string_end, boolean_end, enumerated_end, integer_end, octet_string_end,
    printable_string_end,
};
use aper::value_checks::{is_value, spelled_length};
use aper_fields::widths::place::{Place, octet_count};
use aper_values::value::Value;
use asn1_module::{Module, read_module};
use asn1_syntax::types::Size;
use gnb_types::bits::Bits;
use gnb_types::octets::Octets;
use std::alloc::Global;
use std::process::Abort;

/// 1 to 150, or another number.
const SIZE: Option<Size> = Some(Size {
    low: 1,
    high: 150,
    extensible: true,
});

const MODULE: &[u8] = b"M DEFINITIONS AUTOMATIC TAGS ::= BEGIN
Pair ::= SEQUENCE {a INTEGER (0..255), b BOOLEAN OPTIONAL, ..., c INTEGER (0..255)}
Pairs ::= SEQUENCE (SIZE (1..256)) OF Pair
Either ::= CHOICE {a Pair, b BOOLEAN, ...}
END";

fn octets(end: Option<Place>) -> Option<u128> {
    match end {
        Some(end) => Some(octet_count(end)),
        None => None,
    }
}

/// How many octets a value has as a truth value.
fn boolean(value: Value) -> Option<u128> {
    let end = boolean_end(&value, 0);
    drop(value);
    octets(end)
}

/// How many octets a number has as one of those from 0 on up to a greatest one.
fn integer(most: u64, extensible: bool, number: i128) -> Option<u128> {
    let value = Value::Int(number);
    let end = integer_end(0, i128::from(most), extensible, &value, 0);
    drop(value);
    octets(end)
}

/// How many octets an index has as one of two names, or past them.
fn enumerated(index: u32) -> Option<u128> {
    let value = Value::Enum(index);
    let end = enumerated_end(2, true, &value, 0);
    drop(value);
    octets(end)
}

/// Up to this number, maybe past it: how many octets a number has.
const INTEGERS: [(u64, bool, i128, Option<u128>); 6] = [
    (65536, false, 5, Some(2)),
    (65536, false, 65536, Some(4)),
    (68719476735, false, 5, Some(2)),
    (10, true, 5, Some(1)),
    (10, true, 65536, Some(5)),
    (10, false, 65536, None),
];

/// Where numbers, truth values and names end from the first bit on, as how many octets that is.
#[test]
fn numbers(rt: HostRuntime) {
    for &(most, extensible, number, count) in &INTEGERS {
        assert!(rt;
            integer(most, extensible, number) == count,
            "{number} up to {most}"
        );
    }
    assert!(rt; boolean(Value::Bool(true)) == Some(1));
    assert!(rt; boolean(Value::Int(5)) == None);
    assert!(rt; enumerated(65) == Some(1));
    assert!(rt; enumerated(66) == None);
}

/// How many octets a text has; none where memory lacks.
fn text_length(alloc: Global, text: &[u8]) -> Option<Option<u128>> {
    let text = Value::Text(Octets::from_slice(alloc, text).ok()?);
    Some(octets(printable_string_end(SIZE, &text, 0)))
}

/// How many octets three bits have; none where memory lacks.
fn bits_length(alloc: Global) -> Option<Option<u128>> {
    let bits = Value::Bits(Bits::from_slice(alloc, &[true, false, true]).ok()?);
    Some(octets(bit_string_end(SIZE, &bits, 0)))
}

/// How many octets 16,384 octets have, which are a part of their own; none where memory lacks.
fn part_length(alloc: Global) -> Option<Option<u128>> {
    let part = Value::Octets(Octets::from_slice(alloc, &[0; 16384]).ok()?);
    Some(octets(octet_string_end(None, &part, 0)))
}

#[test]
fn strings(rt: HostRuntime) {
    let alloc = rt.alloc();
    assert!(rt; text_length(alloc, b"du1") == Some(Some(5)));
    assert!(rt; text_length(alloc, b"du*") == Some(None));
    assert!(rt; part_length(alloc) == Some(Some(16386)));
    assert!(rt; octets(octet_string_end(SIZE, &Value::Int(5), 0)) == None);
    assert!(rt; bits_length(alloc) == Some(Some(3)));
}

/// How many octets a value has as one of the type with a name: none where there is no type, or the value isn't one of it.
fn length_in(m: &Module, name: &[u8], value: &Value) -> Option<u64> {
    let id = m.find(name)?;
    if !is_value(m, id, value) {
        return None;
    }
    Some(spelled_length(m, id, value))
}

/// The same; none at all where memory lacks.
fn length_of(m: &Module, name: &[u8], value: Option<Value>) -> Option<Option<u64>> {
    let value = value?;
    let length = length_in(m, name, &value);
    drop(value);
    Some(length)
}

/// A Pair without additions.
fn pair(alloc: Global, a: Option<Value>, b: Option<Value>) -> Option<Value> {
    let root = vec![in alloc; a, b].ok()?;
    Some(Value::Seq {
        root,
        additions: Vec::new(alloc),
    })
}

/// A Pair with the addition 7.
fn extended(alloc: Global) -> Option<Value> {
    let root = vec![in alloc; Some(Value::Int(5)), None].ok()?;
    let additions = vec![in alloc; Some(Value::Int(7))].ok()?;
    Some(Value::Seq { root, additions })
}

fn list(alloc: Global, member: Option<Value>) -> Option<Value> {
    Some(Value::List(vec![in alloc; member?].ok()?))
}

fn choice(alloc: Global, index: u32, body: Option<Value>) -> Option<Value> {
    Some(Value::Choice(index, Box::new(alloc, body?).ok()?))
}

fn raw(alloc: Global) -> Option<Value> {
    Some(Value::Raw(Octets::from_slice(alloc, &[1, 2]).ok()?))
}

/// A list of one Pair with this number.
fn pairs(alloc: Global, a: i128) -> Option<Value> {
    list(alloc, pair(alloc, Some(Value::Int(a)), None))
}

fn values_are_measured(rt: &impl Abort, alloc: Global, m: &Module) {
    assert!(rt; length_of(m, b"Pair", pair(alloc, Some(Value::Int(5)), None)) == Some(Some(2)));
    assert!(rt; length_of(m, b"Pair", pair(alloc, Some(Value::Int(256)), None)) == Some(None));
    assert!(rt; length_of(m, b"Pair", pair(alloc, None, Some(Value::Bool(true)))) == Some(None));
    assert!(rt; length_of(m, b"Other", Some(Value::Int(5))) == Some(None));
    assert!(rt; length_of(m, b"Pairs", pairs(alloc, 5)) == Some(Some(3)));
    assert!(rt; length_of(m, b"Pairs", pairs(alloc, 256)) == Some(None));
}

/// A Pair: the extension bit and the bit of `b`, a pad to the next octet, and `a`; a list has one octet more for its count.
#[test]
fn values_of_a_module(rt: HostRuntime) {
    let read = read_module(rt.alloc(), MODULE);
    assert!(rt; read.is_ok());
    if let Ok((module, _)) = &read {
        values_are_measured(&rt, rt.alloc(), module);
    }
    drop(read);
}

fn additions_are_measured(rt: &impl Abort, alloc: Global, m: &Module) {
    assert!(rt; length_of(m, b"Pair", extended(alloc)) == Some(Some(5)));
    assert!(rt; length_of(m, b"Either", choice(alloc, 0, extended(alloc))) == Some(Some(5)));
    assert!(rt; length_of(m, b"Either", choice(alloc, 2, raw(alloc))) == Some(Some(4)));
    assert!(rt; length_of(m, b"Either", choice(alloc, 2, Some(Value::Int(5)))) == Some(None));
}

/// An addition: 7 bits for their number and one for each, a pad, a length and an octet.
#[test]
fn additions_of_a_module(rt: HostRuntime) {
    let read = read_module(rt.alloc(), MODULE);
    assert!(rt; read.is_ok());
    if let Ok((module, _)) = &read {
        additions_are_measured(&rt, rt.alloc(), module);
    }
    drop(read);
}
