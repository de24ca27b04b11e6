//! Values of types with types inside.

ghost use Rattle.std.specs.Prelude.{◌≡◌, ◌<◌, [], ◌∷◌, length, Option, OnOk};
ghost use Rattle.json.specs.Token.{key};
ghost use Rattle.serde_json.specs.Data.{array};
ghost use Rattle.asn1_syntax.specs.declared.types.definition.Size.{Size};
ghost use Rattle.asn1_defs.specs.Links.{AreBelow, OptionBelow, PartsBelow, IesBelow, ProceduresBelow};
ghost use Rattle.aper_values.specs.Views.{view, options_view};
ghost use Rattle.aper_defs.specs.Values.{has_options};
ghost use Rattle.json_defs.specs.Named.{container, pdu, sequence_of};
ghost use Rattle.json_defs.specs.Members.{id_key, outcomes};
ghost use Rattle.json_defs.specs.shown_defs.Printed.{shown_as, added_shown, row_shown, body_shown, one_member, name_at};
ghost use Rattle.values_json.specs.tokens.Written.{Adds, WritesWhole};
ghost use Rattle.json_defs.specs.type_defs.Types.{named, parts_with, rows_with, procedures_with};
ghost use Rattle.json_fields.specs.types.Forms.{sequence_named, choice_named};
ghost use Rattle.values_json.specs.order.Listed.{listed};
ghost use Rattle.values_json.specs.printing.Inside.{inside_shown, Lists, BeginsObject};

use crate::order::{Member, count_in_order, members_by_name};
use crate::pieces::error::PrintError;
use crate::pieces::objects::{begin_body, write_past};
use crate::pieces::simple::{
    write_bit_string, write_boolean, write_enumerated, write_octet_string, write_printable_string,
    write_whole_number,
};
use crate::pieces::texts::{write_key, write_null, write_raw};
use aper_fields::members::rows::{message_type, named, part_type, row_type};
use aper_values::value::{Element, Value};
use asn1_module::Module;
use asn1_syntax::assignments::{IeRow, ProcedureRow};
use asn1_syntax::types::{Component, Extensible, TypeId};
use json::Writer;
use json_fields::types::{NamedForm, form_of};
use std::alloc::Global;

/// A value of a type. Of what is no value of it this is any JSON that the definitions give.
#[cycle(write)]
pub fn write_value(
    alloc: Global,
    m: &Module,
    id: TypeId,
    value: &Value,
    out: &mut Writer,
) -> Result<(), PrintError>
    requires { id.number < length m.now.nodes }
    ensures { OnOk result (WritesWhole (shown_as (named m.now id.number) (view value.now)) out.old out.new) }
{
    match form_of(m, id) {
        NamedForm::Boolean => write_boolean(value, out),
        NamedForm::Integer { .. } => write_whole_number(value, out),
        NamedForm::Enumerated(names) => write_enumerated(names, value, out),
        NamedForm::BitString(_) => write_bit_string(alloc, value, out),
        NamedForm::OctetString(_) => write_octet_string(alloc, value, out),
        NamedForm::PrintableString(_) => write_printable_string(value, out),
        NamedForm::Sequence(members) => write_sequence(alloc, m, members, value, out),
        NamedForm::Choice(members) => write_choice(alloc, m, members, value, out),
        NamedForm::SequenceOf { element, .. } => write_list(alloc, m, element, value, out),
        NamedForm::Container(rows) => write_container(alloc, m, rows, value, out),
        NamedForm::Pdu(rows) => write_message(alloc, m, rows, value, out),
    }
}

/// A value whose type a row or a name gives, or octets of what none has.
#[cycle(write)]
fn write_inside(
    alloc: Global,
    m: &Module,
    id: Option<TypeId>,
    value: &Value,
    out: &mut Writer,
) -> Result<(), PrintError>
    requires { OptionBelow (length m.now.nodes) id }
    ensures { OnOk result (WritesWhole (inside_shown (named m.now) id (view value.now)) out.old out.new) }
{
    match id {
        Some(id) => write_value(alloc, m, id, value, out),
        None => write_raw(alloc, value, out),
    }
}

/// The components that are there, in the order in which they come.
#[cycle(write)]
fn write_components(
    alloc: Global,
    m: &Module,
    parts: &[Component],
    values: &[Option<Value>],
    out: &mut Writer,
) -> Result<(), PrintError>
    requires { AreBelow (length m.now.nodes) parts.now }
    ensures { OnOk result (Lists (listed (parts_with (named m.now) parts.now) (options_view values.now)) out.old out.new) }
{
    for i in 0..parts.len().min(values.len()) {
        let Some(value) = &values[i] else {
            continue;
        };
        write_key(parts[i].name.as_slice(), out)?;
        write_value(alloc, m, parts[i].definition, value, out)?;
    }
    Ok(())
}

/// The list of additions: null for one that isn't there, and octets for one that has no name.
#[cycle(write)]
fn write_additions(
    alloc: Global,
    m: &Module,
    parts: &[Component],
    values: &[Option<Value>],
    out: &mut Writer,
) -> Result<(), PrintError>
    requires { AreBelow (length m.now.nodes) parts.now }
    ensures { OnOk result (WritesWhole
        (array (added_shown (parts_with (named m.now) parts.now) (options_view values.now))) out.old out.new) }
{
    out.begin_array()?;
    for (i, value) in values.iter().enumerate() {
        let Some(value) = value else {
            out.null()?;
            continue;
        };
        write_inside(alloc, m, part_type(parts, i), value, out)?;
    }
    out.end_array()?;
    Ok(())
}

/// The object of a SEQUENCE whose components aren't in the order of their names.
#[cycle(write)]
#[tactic(auto, unfolding(json_defs::specs::shown_defs::Printed::shown_as))]
fn write_by_name(
    alloc: Global,
    m: &Module,
    members: &Extensible<Component>,
    value: &Value,
    out: &mut Writer,
) -> Result<(), PrintError>
    requires { PartsBelow (length m.now.nodes) members.now }
    ensures { OnOk result
        (WritesWhole (shown_as (sequence_named (named m.now) members.now) (view value.now)) out.old out.new) }
{
    let Value::Seq { root, additions } = value else {
        return write_null(out);
    };
    let parts = members.root.as_slice();
    let shown = members_by_name(alloc, parts, root, !additions.is_empty())?;
    out.begin_object()?;
    for (name, member) in shown.iter() {
        write_key(name, out)?;
        let Member::Component(i) = *member else {
            write_additions(alloc, m, named(&members.additions), additions, out)?;
            continue;
        };
        let Some(value) = &root[i] else {
            out.null()?;
            continue;
        };
        write_inside(alloc, m, part_type(parts, i), value, out)?;
    }
    out.end_object()?;
    Ok(())
}

/// The object of a SEQUENCE, begun, and its additions where there are some.
#[cycle(write)]
fn begin_object(
    alloc: Global,
    m: &Module,
    added: &[Component],
    additions: &[Option<Value>],
    out: &mut Writer,
) -> Result<(), PrintError>
    requires { AreBelow (length m.now.nodes) added.now }
    ensures { OnOk result (BeginsObject (has_options (options_view additions.now))
        (added_shown (parts_with (named m.now) added.now) (options_view additions.now)) out.old out.new) }
{
    out.begin_object()?;
    if additions.is_empty() {
        return Ok(());
    }
    out.key("...")?;
    write_additions(alloc, m, added, additions, out)
}

#[cycle(write)]
#[tactic(auto, unfolding(json_defs::specs::shown_defs::Printed::shown_as))]
fn write_sequence(
    alloc: Global,
    m: &Module,
    members: &Extensible<Component>,
    value: &Value,
    out: &mut Writer,
) -> Result<(), PrintError>
    requires { PartsBelow (length m.now.nodes) members.now }
    ensures { OnOk result
        (WritesWhole (shown_as (sequence_named (named m.now) members.now) (view value.now)) out.old out.new) }
{
    let Value::Seq { root, additions } = value else {
        return write_null(out);
    };
    let parts = members.root.as_slice();
    let has_additions = !additions.is_empty();
    if count_in_order(parts, root, has_additions).is_none() {
        return write_by_name(alloc, m, members, value, out);
    }
    begin_object(alloc, m, named(&members.additions), additions, out)?;
    write_components(alloc, m, parts, root, out)?;
    out.end_object()?;
    Ok(())
}

/// An object with one member.
#[cycle(write)]
fn write_one(
    alloc: Global,
    m: &Module,
    part: &Component,
    value: &Value,
    out: &mut Writer,
) -> Result<(), PrintError>
    requires { part.now.definition.number < length m.now.nodes }
    ensures { OnOk result (WritesWhole (one_member part.now.name
        (shown_as (named m.now part.now.definition.number) (view value.now))) out.old out.new) }
{
    out.begin_object()?;
    write_key(part.name.as_slice(), out)?;
    write_value(alloc, m, part.definition, value, out)?;
    out.end_object()?;
    Ok(())
}

#[cycle(write)]
#[tactic(auto, unfolding(json_defs::specs::shown_defs::Printed::shown_as))]
fn write_choice(
    alloc: Global,
    m: &Module,
    members: &Extensible<Component>,
    value: &Value,
    out: &mut Writer,
) -> Result<(), PrintError>
    requires { PartsBelow (length m.now.nodes) members.now }
    ensures { OnOk result
        (WritesWhole (shown_as (choice_named (named m.now) members.now) (view value.now)) out.old out.new) }
{
    let Value::Choice(index, body) = value else {
        return write_null(out);
    };
    let index = *index as usize;
    let root = members.root.as_slice();
    if index < root.len() {
        return write_one(alloc, m, &root[index], body, out);
    }
    let additions = named(&members.additions);
    let index = index - root.len();
    if index < additions.len() {
        return write_one(alloc, m, &additions[index], body, out);
    }
    write_past(alloc, (index - additions.len()) as u64, body, out)
}

#[cycle(write)]
#[tactic(auto, unfolding(json_defs::specs::shown_defs::Printed::shown_as))]
fn write_list(
    alloc: Global,
    m: &Module,
    element: TypeId,
    value: &Value,
    out: &mut Writer,
) -> Result<(), PrintError>
    requires { element.number < length m.now.nodes }
    ensures { (size : Option Size) → OnOk result (WritesWhole
        (shown_as (sequence_of size (named m.now element.number)) (view value.now)) out.old out.new) }
{
    let Value::List(members) = value else {
        return write_null(out);
    };
    out.begin_array()?;
    for member in members {
        write_value(alloc, m, element, member, out)?;
    }
    out.end_array()?;
    Ok(())
}

/// An information element.
#[cycle(write)]
fn write_element(
    alloc: Global,
    m: &Module,
    rows: &[IeRow],
    ie: &Element<Value>,
    out: &mut Writer,
) -> Result<(), PrintError>
    requires { IesBelow (length m.now.nodes) rows.now }
    ensures { OnOk result (WritesWhole (body_shown id_key ie.now.id ie.now.criticality
        (row_shown (rows_with (named m.now) rows.now) ie.now.id (view ie.now.body))) out.old out.new) }
{
    let definition = row_type(ie.id, rows);
    begin_body(
        "id",
        u64::from(ie.id),
        ie.criticality,
        definition.is_some(),
        out,
    )?;
    write_inside(alloc, m, definition, &ie.body, out)?;
    out.end_object()?;
    Ok(())
}

#[cycle(write)]
#[tactic(auto, unfolding(json_defs::specs::shown_defs::Printed::shown_as))]
fn write_container(
    alloc: Global,
    m: &Module,
    rows: &[IeRow],
    value: &Value,
    out: &mut Writer,
) -> Result<(), PrintError>
    requires { IesBelow (length m.now.nodes) rows.now }
    ensures { OnOk result
        (WritesWhole (shown_as (container (rows_with (named m.now) rows.now)) (view value.now)) out.old out.new) }
{
    let Value::Ies(ies) = value else {
        return write_null(out);
    };
    out.begin_array()?;
    for ie in ies {
        write_element(alloc, m, rows, ie, out)?;
    }
    out.end_array()?;
    Ok(())
}

fn write_outcome(outcome: u32, out: &mut Writer) -> Result<(), PrintError>
    ensures { OnOk result (Adds (key (name_at outcomes outcome) ∷ []) out.old out.new) }
{
    match outcome {
        0 => out.key("initiatingMessage")?,
        1 => out.key("successfulOutcome")?,
        2 => out.key("unsuccessfulOutcome")?,
        _ => out.key("")?,
    }
    Ok(())
}

#[cycle(write)]
#[tactic(auto, unfolding(json_defs::specs::shown_defs::Printed::shown_as))]
fn write_message(
    alloc: Global,
    m: &Module,
    rows: &[ProcedureRow],
    value: &Value,
    out: &mut Writer,
) -> Result<(), PrintError>
    requires { ProceduresBelow (length m.now.nodes) rows.now }
    ensures { OnOk result
        (WritesWhole (shown_as (pdu (procedures_with (named m.now) rows.now)) (view value.now)) out.old out.new) }
{
    let Value::Pdu {
        outcome,
        code,
        criticality,
        body,
    } = value
    else {
        return write_null(out);
    };
    if *outcome >= 3 {
        return write_past(alloc, u64::from(*outcome - 3), body, out);
    }
    let definition = message_type(*outcome, *code, rows);
    out.begin_object()?;
    write_outcome(*outcome, out)?;
    begin_body(
        "procedureCode",
        u64::from(*code),
        *criticality,
        definition.is_some(),
        out,
    )?;
    write_inside(alloc, m, definition, body, out)?;
    out.end_object()?;
    out.end_object()?;
    Ok(())
}
