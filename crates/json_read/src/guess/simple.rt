//! Values of the types that have no types inside.

use crate::guess::scan::Scan;
use aper_values::value::Value;
use asn1_syntax::types::Extensible;
use gnb_types::bits::Bits;
use gnb_types::hex::hex_bytes;
use gnb_types::octets::Octets;
use json_fields::members::names::place_of;
use std::alloc::Global;

pub(crate) fn boolean(scan: &mut Scan<'_>) -> Option<Value> {
    if scan.take(b"true").is_some() {
        return Some(Value::Bool(true));
    }
    scan.take(b"false")?;
    Some(Value::Bool(false))
}

pub(crate) fn integer(scan: &mut Scan<'_>) -> Option<Value> {
    Some(Value::Int(scan.number()?))
}

pub(crate) fn enumerated(names: &Extensible<Octets>, scan: &mut Scan<'_>) -> Option<Value> {
    let place = place_of(names, scan.text()?)?;
    Some(Value::Enum(u32::try_from(place).ok()?))
}

pub(crate) fn bit_string(alloc: Global, scan: &mut Scan<'_>) -> Option<Value> {
    let mut bits = Bits::new(alloc);
    for digit in scan.text()? {
        bits.push(*digit == b'1').ok()?;
    }
    Some(Value::Bits(bits))
}

pub(crate) fn octets(alloc: Global, scan: &mut Scan<'_>) -> Option<Octets> {
    hex_bytes(alloc, scan.text()?).ok()
}

pub(crate) fn printable_string(alloc: Global, scan: &mut Scan<'_>) -> Option<Value> {
    let characters = Octets::from_slice(alloc, scan.text()?).ok()?;
    Some(Value::Text(characters))
}
