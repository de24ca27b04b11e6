//! Values of types with types inside.

ghost use Rattle.std.specs.Prelude.{◌<◌, ◌≡◌, length, IfSome};
ghost use Rattle.asn1_defs.specs.Links.{AreBelow, OptionBelow, IesBelow, ProceduresBelow};

use crate::guess::scan::Scan;
use crate::guess::simple::{bit_string, boolean, enumerated, integer, octets, printable_string};
use aper_fields::members::rows::{message_type, row_type};
use aper_values::make::{chosen, components, elements, listed, message};
use aper_values::value::{Ie, OptValues, Value};
use asn1_module::Module;
use asn1_syntax::assignments::{IeRow, ProcedureRow};
use asn1_syntax::types::{Component, TypeId};
use json_fields::members::names::criticality_of;
use json_fields::types::{NamedForm, form_of};
use std::alloc::Global;

/// The types of a module nest at most so deep, with names that types go by.
const LEVELS: u16 = 255;

/// So many members of a list or elements of a container are looked at.
const MEMBERS: usize = 65_536;

/// A value that a line may show. Lines in another form than values are printed in, and rare forms of values, have none.
pub fn likely_value(alloc: Global, m: &Module, id: TypeId, text: &[u8]) -> Option<Value>
    requires { id.number < length m.now.nodes }
{
    let mut scan = Scan::new(text);
    value(alloc, m, id, &mut scan, LEVELS)
}

#[cycle(guess)]
fn value(alloc: Global, m: &Module, id: TypeId, scan: &mut Scan<'_>, levels: u16) -> Option<Value>
    requires { id.number < length m.now.nodes }
{
    let levels = levels.checked_sub(1)?;
    match form_of(m, id) {
        NamedForm::Boolean => boolean(scan),
        NamedForm::Integer { .. } => integer(scan),
        NamedForm::Enumerated(names) => enumerated(names, scan),
        NamedForm::BitString(_) => bit_string(alloc, scan),
        NamedForm::OctetString(_) => Some(Value::Octets(octets(alloc, scan)?)),
        NamedForm::PrintableString(_) => printable_string(alloc, scan),
        NamedForm::Sequence(members) => {
            sequence(alloc, m, members.root.as_slice(), scan, levels)
        }
        NamedForm::Choice(members) => choice(alloc, m, members.root.as_slice(), scan, levels),
        NamedForm::SequenceOf { element, .. } => list(alloc, m, element, scan, levels),
        NamedForm::Container(rows) => container(alloc, m, rows, scan, levels),
        NamedForm::Pdu(rows) => pdu(alloc, m, rows, scan, levels),
    }
}

/// The place of the part with a name.
fn place_among(parts: &[Component], name: &[u8]) -> Option<usize>
    ensures { IfSome result (λ i. i < length parts.now) }
{
    for (i, part) in parts.iter().enumerate() {
        if part.name.as_slice() == name {
            return Some(i);
        }
    }
    None
}

/// So many components that are absent.
fn absent(alloc: Global, count: usize) -> Option<OptValues>
    ensures { IfSome result (λ values. length values.items ≡ count) }
{
    let mut values = Vec::with_capacity(alloc, count).ok()?;
    for _ in 0..count {
        values.push(None).ok()?;
    }
    Some(values)
}

#[cycle(guess)]
fn sequence(
    alloc: Global,
    m: &Module,
    parts: &[Component],
    scan: &mut Scan<'_>,
    levels: u16,
) -> Option<Value>
    requires { AreBelow (length m.now.nodes) parts.now }
{
    scan.take(b"{")?;
    let mut values = absent(alloc, parts.len())?;
    for count in 0..=parts.len() {
        if scan.take(b"}").is_some() {
            return Some(components(values, Vec::new(alloc)));
        }
        if count > 0 {
            scan.take(b",")?;
        }
        let place = place_among(parts, scan.key()?)?;
        values[place] = Some(value(alloc, m, parts[place].definition, scan, levels)?);
    }
    None
}

#[cycle(guess)]
fn choice(
    alloc: Global,
    m: &Module,
    parts: &[Component],
    scan: &mut Scan<'_>,
    levels: u16,
) -> Option<Value>
    requires { AreBelow (length m.now.nodes) parts.now }
{
    scan.take(b"{")?;
    let place = place_among(parts, scan.key()?)?;
    let body = value(alloc, m, parts[place].definition, scan, levels)?;
    scan.take(b"}")?;
    chosen(alloc, u32::try_from(place).ok()?, body).ok()
}

#[cycle(guess)]
fn list(
    alloc: Global,
    m: &Module,
    element: TypeId,
    scan: &mut Scan<'_>,
    levels: u16,
) -> Option<Value>
    requires { element.number < length m.now.nodes }
{
    scan.take(b"[")?;
    let mut members = Vec::new(alloc);
    for count in 0..MEMBERS {
        if scan.take(b"]").is_some() {
            return Some(listed(members));
        }
        if count > 0 {
            scan.take(b",")?;
        }
        members.push(value(alloc, m, element, scan, levels)?).ok()?;
    }
    None
}

/// The criticality, with its comma.
fn criticality(scan: &mut Scan<'_>) -> Option<u8> {
    scan.take(b"\"criticality\":")?;
    let criticality = criticality_of(scan.text()?)?;
    scan.take(b",")?;
    Some(criticality)
}

/// What an information element or a message holds, up to the end of its object.
#[cycle(guess)]
fn contents(
    alloc: Global,
    m: &Module,
    known: Option<TypeId>,
    scan: &mut Scan<'_>,
    levels: u16,
) -> Option<Value>
    requires { OptionBelow (length m.now.nodes) known }
{
    let body = match known {
        Some(id) => {
            scan.take(b",\"value\":")?;
            value(alloc, m, id, scan, levels)?
        }
        None => {
            scan.take(b",\"raw\":")?;
            Value::Raw(octets(alloc, scan)?)
        }
    };
    scan.take(b"}")?;
    Some(body)
}

#[cycle(guess)]
fn element(
    alloc: Global,
    m: &Module,
    rows: &[IeRow],
    scan: &mut Scan<'_>,
    levels: u16,
) -> Option<Ie>
    requires { IesBelow (length m.now.nodes) rows.now }
{
    scan.take(b"{")?;
    let criticality = criticality(scan)?;
    scan.take(b"\"id\":")?;
    let id = u16::try_from(scan.number()?).ok()?;
    let body = contents(alloc, m, row_type(id, rows), scan, levels)?;
    Some(Ie {
        id,
        criticality,
        body,
    })
}

#[cycle(guess)]
fn container(
    alloc: Global,
    m: &Module,
    rows: &[IeRow],
    scan: &mut Scan<'_>,
    levels: u16,
) -> Option<Value>
    requires { IesBelow (length m.now.nodes) rows.now }
{
    scan.take(b"[")?;
    let mut ies = Vec::new(alloc);
    for count in 0..MEMBERS {
        if scan.take(b"]").is_some() {
            return Some(elements(ies));
        }
        if count > 0 {
            scan.take(b",")?;
        }
        ies.push(element(alloc, m, rows, scan, levels)?).ok()?;
    }
    None
}

fn outcome(name: &[u8]) -> Option<u32> {
    match name {
        b"initiatingMessage" => Some(0),
        b"successfulOutcome" => Some(1),
        b"unsuccessfulOutcome" => Some(2),
        _ => None,
    }
}

#[cycle(guess)]
fn pdu(
    alloc: Global,
    m: &Module,
    rows: &[ProcedureRow],
    scan: &mut Scan<'_>,
    levels: u16,
) -> Option<Value>
    requires { ProceduresBelow (length m.now.nodes) rows.now }
{
    scan.take(b"{")?;
    let outcome = outcome(scan.key()?)?;
    scan.take(b"{")?;
    let criticality = criticality(scan)?;
    scan.take(b"\"procedureCode\":")?;
    let code = u8::try_from(scan.number()?).ok()?;
    let body = contents(alloc, m, message_type(outcome, code, rows), scan, levels)?;
    scan.take(b"}")?;
    message(alloc, outcome, code, criticality, body).ok()
}
