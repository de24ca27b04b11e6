//! Values of types with types inside.

ghost use Rattle.std.specs.Prelude.{◌≡◌, ◌<◌, ◌≤◌, false, length, OnOk};
ghost use Rattle.asn1_defs.specs.Links.{AreBelow, OptionBelow, PartsBelow, IesBelow, ProceduresBelow};
ghost use Rattle.aper_defs.specs.Bounds.{IsBounded, IsSizeBounded};
ghost use Rattle.aper_defs.specs.Trees.{container, pdu, sequence_of};
ghost use Rattle.aper_values.specs.types.Forms.{form_tree, IsFormInside};
ghost use Rattle.aper_values.specs.types.Types.{tree, parts_of, rows_of, procedures_of, sequence_tree, choice_tree};
ghost use Rattle.aper_values.specs.Views.{view, options_view};
ghost use Rattle.aper_fields.specs.members.Membership.{IsValue, IsInside, AreComponents, AreNamed};
ghost use Rattle.aper_fields.specs.members.Followed.{ValueFollows, InsideFollows, ComponentsFollow, AdditionsFollow};

use crate::writing::simple::{
    put_bit_string, put_boolean, put_enumerated, put_octet_string, put_printable_string,
    put_whole_number,
};
use aper_fields::contents::{completed, put_contents};
use aper_fields::fields::{put_constrained, put_ie_count, put_ie_id, put_pad};
use aper_fields::members::heads::{put_flags, put_head, put_marks};
use aper_fields::members::raw::{put_past, put_raw};
use aper_fields::members::rows::{message_type, named, part_type, row_type};
use aper_fields::numbers::{put_extension, put_index};
use aper_fields::strings::put_count;
use aper_values::types::{Form, form_of};
use aper_values::value::Value;
use asn1_module::Module;
use asn1_syntax::assignments::{IeRow, ProcedureRow};
use asn1_syntax::types::{Component, Extensible, Size, TypeId};
use bits_core::writer::BitWriter;
use gnb_types::items::Memory;
use std::alloc::Global;

/// A value of a type.
#[cycle(put)]
pub(crate) fn put_value(
    alloc: Global,
    out: &mut BitWriter,
    m: &Module,
    id: TypeId,
    value: &Value,
) -> Result<(), Memory>
    requires inside { id.number < length m.now.nodes }
    requires member { IsValue (tree m.now id.number) (view value.now) }
    requires going { out.old.failed ≡ false }
    ensures going { OnOk result (out.new.failed ≡ false) }
    ensures follows { OnOk result
        (ValueFollows out.old out.new (tree m.now id.number) (view value.now)) }
{
    Ok(put_form(alloc, out, m, form_of(m, id), value)?)
}

/// A value of a type of a form.
#[cycle(put)]
#[tactic(auto, unfolding(aper_defs::specs::Bounds::IsBounded))]
fn put_form(
    alloc: Global,
    out: &mut BitWriter,
    m: &Module,
    form: Form<'_>,
    value: &Value,
) -> Result<(), Memory>
    requires inside { IsFormInside (length m.now.nodes) form }
    requires bounded { IsBounded (form_tree (tree m.now) form) }
    requires member { IsValue (form_tree (tree m.now) form) (view value.now) }
    requires going { out.old.failed ≡ false }
    ensures going { OnOk result (out.new.failed ≡ false) }
    ensures follows { OnOk result
        (ValueFollows out.old out.new (form_tree (tree m.now) form.entry) (view value.now)) }
{
    match form {
        Form::Boolean => Ok(put_boolean(out, value)?),
        Form::Integer {
            low,
            high,
            extensible,
        } => Ok(put_whole_number(out, low, high, extensible, value)?),
        Form::Enumerated { names, extensible } => Ok(put_enumerated(
            out, names, extensible, value,
        )?),
        Form::BitString(size) => Ok(put_bit_string(out, size, value)?),
        Form::OctetString(size) => Ok(put_octet_string(out, size, value)?),
        Form::PrintableString(size) => Ok(put_printable_string(out, size, value)?),
        Form::Sequence(members) => Ok(put_sequence(alloc, out, m, members, value)?),
        Form::Choice(members) => Ok(put_choice(alloc, out, m, members, value)?),
        Form::SequenceOf { size, element } => Ok(put_list(alloc, out, m, size, element, value)?),
        Form::Container(rows) => Ok(put_container(alloc, out, m, rows, value)?),
        Form::Pdu(rows) => Ok(put_message(alloc, out, m, rows, value)?),
    }
}

/// An open type: a complete encoding of its own, or octets of what no row has.
#[cycle(put)]
fn put_body(
    alloc: Global,
    out: &mut BitWriter,
    m: &Module,
    id: Option<TypeId>,
    value: &Value,
) -> Result<(), Memory>
    requires inside { OptionBelow (length m.now.nodes) id }
    requires member { IsInside (tree m.now) id (view value.now) }
    ensures going { OnOk result (out.new.failed ≡ false) }
    ensures follows { OnOk result
        (InsideFollows (tree m.now) id out.old out.new (view value.now)) }
{
    let Some(id) = id else {
        return Ok(put_raw(out, value)?);
    };
    let mut contents = BitWriter::new(alloc);
    put_value(alloc, &mut contents, m, id, value)?;
    let octets = completed(contents)?;
    Ok(put_contents(out, octets.as_slice())?)
}

/// The components that are there.
#[cycle(put)]
fn put_components(
    alloc: Global,
    out: &mut BitWriter,
    m: &Module,
    parts: &[Component],
    values: &[Option<Value>],
) -> Result<(), Memory>
    requires inside { AreBelow (length m.now.nodes) parts.now }
    requires member { AreComponents (parts_of (tree m.now) parts.now) (options_view values.now) }
    requires going { out.old.failed ≡ false }
    ensures going { OnOk result (out.new.failed ≡ false) }
    ensures follows { OnOk result
        (ComponentsFollow (tree m.now) out.old out.new parts.now values.now) }
{
    for (i, value) in values.iter().enumerate() {
        let Some(value) = value else {
            continue;
        };
        put_value(alloc, out, m, parts[i].definition, value)?;
    }
    Ok(())
}

/// The additions that are there, each an open type. Those past the named ones aren't known.
#[cycle(put)]
fn put_additions(
    alloc: Global,
    out: &mut BitWriter,
    m: &Module,
    parts: &[Component],
    values: &[Option<Value>],
) -> Result<(), Memory>
    requires inside { AreBelow (length m.now.nodes) parts.now }
    requires member { AreNamed (parts_of (tree m.now) parts.now) (options_view values.now) }
    requires going { out.old.failed ≡ false }
    ensures going { OnOk result (out.new.failed ≡ false) }
    ensures follows { OnOk result
        (AdditionsFollow (tree m.now) out.old out.new parts.now values.now) }
{
    for (i, value) in values.iter().enumerate() {
        let Some(value) = value else {
            continue;
        };
        put_body(alloc, out, m, part_type(parts, i), value)?;
    }
    Ok(())
}

/// A SEQUENCE.
#[cycle(put)]
#[tactic(auto, unfolding(aper_defs::specs::Membership::Has))]
fn put_sequence(
    alloc: Global,
    out: &mut BitWriter,
    m: &Module,
    members: &Extensible<Component>,
    value: &Value,
) -> Result<(), Memory>
    requires inside { PartsBelow (length m.now.nodes) members.now }
    requires member { IsValue (sequence_tree (tree m.now) members.now) (view value.now) }
    requires going { out.old.failed ≡ false }
    ensures going { OnOk result (out.new.failed ≡ false) }
    ensures follows { OnOk result
        (ValueFollows out.old out.new (sequence_tree (tree m.now) members.now) (view value.now)) }
{
    match value {
        Value::Seq { root, additions } => {
            let parts = members.root.as_slice();
            put_extension(out, members.additions.is_some(), !additions.is_empty())?;
            put_flags(out, parts, root)?;
            put_components(alloc, out, m, parts, root)?;
            put_marks(out, additions)?;
            Ok(put_additions(alloc, out, m, named(&members.additions), additions)?)
        }
        _ => unreachable!(),
    }
}

/// A CHOICE.
#[cycle(put)]
#[tactic(auto, unfolding(aper_defs::specs::Membership::Has))]
fn put_choice(
    alloc: Global,
    out: &mut BitWriter,
    m: &Module,
    members: &Extensible<Component>,
    value: &Value,
) -> Result<(), Memory>
    requires inside { PartsBelow (length m.now.nodes) members.now }
    requires some { 1 ≤ length members.now.root }
    requires member { IsValue (choice_tree (tree m.now) members.now) (view value.now) }
    requires going { out.old.failed ≡ false }
    ensures going { OnOk result (out.new.failed ≡ false) }
    ensures follows { OnOk result
        (ValueFollows out.old out.new (choice_tree (tree m.now) members.now) (view value.now)) }
{
    match value {
        Value::Choice(index, body) => {
            let index = *index as usize;
            let root = members.root.as_slice();
            put_index(out, root.len(), members.additions.is_some(), index)?;
            if index < root.len() {
                return Ok(put_value(alloc, out, m, root[index].definition, body)?);
            }
            let addition = part_type(named(&members.additions), index - root.len());
            Ok(put_body(alloc, out, m, addition, body)?)
        }
        _ => unreachable!(),
    }
}

/// A SEQUENCE OF.
#[cycle(put)]
#[tactic(auto, unfolding(aper_defs::specs::Membership::Has))]
fn put_list(
    alloc: Global,
    out: &mut BitWriter,
    m: &Module,
    size: Option<Size>,
    element: TypeId,
    value: &Value,
) -> Result<(), Memory>
    requires inside { element.number < length m.now.nodes }
    requires bounded { IsSizeBounded size }
    requires member { IsValue (sequence_of size (tree m.now element.number)) (view value.now) }
    requires going { out.old.failed ≡ false }
    ensures going { OnOk result (out.new.failed ≡ false) }
    ensures follows { OnOk result
        (ValueFollows out.old out.new (sequence_of size (tree m.now element.number)) (view value.now)) }
{
    match value {
        Value::List(members) => {
            put_count(out, size, members.len())?;
            for member in members {
                put_value(alloc, out, m, element, member)?;
            }
            Ok(())
        }
        _ => unreachable!(),
    }
}

/// A ProtocolIE-Container.
#[cycle(put)]
#[tactic(auto, unfolding(aper_defs::specs::Membership::Has))]
fn put_container(
    alloc: Global,
    out: &mut BitWriter,
    m: &Module,
    rows: &[IeRow],
    value: &Value,
) -> Result<(), Memory>
    requires inside { IesBelow (length m.now.nodes) rows.now }
    requires member { IsValue (container (rows_of (tree m.now) rows.now)) (view value.now) }
    ensures going { OnOk result (out.new.failed ≡ false) }
    ensures follows { OnOk result
        (ValueFollows out.old out.new (container (rows_of (tree m.now) rows.now)) (view value.now)) }
{
    match value {
        Value::Ies(ies) => {
            put_pad(out)?;
            put_ie_count(out, ies.len() as u16)?;
            for ie in ies {
                put_pad(out)?;
                put_ie_id(out, ie.id)?;
                put_constrained(out, 2, u64::from(ie.criticality))?;
                put_body(alloc, out, m, row_type(ie.id, rows), &ie.body)?;
            }
            Ok(())
        }
        _ => unreachable!(),
    }
}

/// A Protocol-PDU.
#[cycle(put)]
#[tactic(auto, unfolding(aper_defs::specs::Membership::Has))]
fn put_message(
    alloc: Global,
    out: &mut BitWriter,
    m: &Module,
    rows: &[ProcedureRow],
    value: &Value,
) -> Result<(), Memory>
    requires inside { ProceduresBelow (length m.now.nodes) rows.now }
    requires member { IsValue (pdu (procedures_of (tree m.now) rows.now)) (view value.now) }
    ensures going { OnOk result (out.new.failed ≡ false) }
    ensures follows { OnOk result
        (ValueFollows out.old out.new (pdu (procedures_of (tree m.now) rows.now)) (view value.now)) }
{
    match value {
        Value::Pdu {
            outcome,
            code,
            criticality,
            body,
        } => {
            if *outcome >= 3 {
                return Ok(put_past(out, *outcome, body)?);
            }
            put_head(out, *outcome, *code, *criticality)?;
            Ok(put_body(alloc, out, m, message_type(*outcome, *code, rows), body)?)
        }
        _ => unreachable!(),
    }
}
