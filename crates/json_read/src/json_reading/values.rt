//! Values of types with types inside.

ghost use Rattle.std.specs.Prelude.{◌≡◌, ◌<◌, ◌∷◌, [], length};
ghost use Rattle.serde_json.specs.View.{view as json, members_view};
ghost use Rattle.asn1_defs.specs.Modules.{IsModule};
ghost use Rattle.asn1_defs.specs.Links.{AreBelow, OptionBelow, PartsBelow, IesBelow, ProceduresBelow};
ghost use Rattle.aper_values.specs.Views.{options_view};
ghost use Rattle.json_defs.specs.Named.{container, pdu, sequence_of};
ghost use Rattle.json_defs.specs.Members.{criticality_key};
ghost use Rattle.json_defs.specs.Readings.{value_of, components_in};
ghost use Rattle.json_defs.specs.Demands.{demands, component_demands};
ghost use Rattle.json_defs.specs.type_defs.Types.{named, parts_with, rows_with, procedures_with};
ghost use Rattle.json_fields.specs.types.Forms.{form_named, IsFormInside, sequence_named, choice_named};
ghost use Rattle.json_fields.specs.simple.Answers.{Reads};
ghost use Rattle.json_read.specs.wholes.Reads.{ReadsAs, ReadsAdditions};
ghost use Rattle.json_read.specs.reading.Inside.{IsFormSmall, ArePartsFew, listed, opened, added, contents_demands, contents_read};

use crate::wholes::contents::{alone, first_unfit, held, inside, is_fitting, keyed, unknown_in};
use crate::wholes::heads::{element_head, message_head};
use crate::wholes::members::{
    additions_member, are_additions, put_absent, put_element, put_member, put_present,
};
use crate::wholes::wholes::{
    Additions, alternative, message, past_alternative, past_message, sequence,
};
use aper::measuring::bounds::is_member_count_of;
use aper_fields::members::rows::{message_type, named, row_type};
use aper_frames::Step;
use aper_values::value::{OptValues, Value};
use asn1_module::Module;
use asn1_syntax::assignments::{IeRow, ProcedureRow};
use asn1_syntax::types::{Component, Extensible, Size, TypeId};
use json_fields::members::members::{Members, member};
use json_fields::parts::order::are_in_order;
use json_fields::parts::outcomes::outcome_in;
use json_fields::parts::parts::part_in;
use json_fields::simple::enumerated::enumerated_in;
use json_fields::simple::refusal::{Refusal, range, shape};
use json_fields::simple::simple::{
    bit_string_in, boolean_in, octet_string_in, printable_string_in, raw_in, whole_number_in,
};
use json_fields::types::{NamedForm, form_of};
use serde_json::Value as Json;
use std::alloc::Global;

/// The value of a type that JSON shows.
#[cycle(read)]
pub fn value_in<'m>(
    alloc: Global,
    m: &'m Module,
    id: TypeId,
    d: &Json,
) -> Result<Value, Refusal<'m>>
    requires { id.number < length m.now.nodes }
    ensures read { ReadsAs (λ p. demands p (named m.now id.number) (json d.now))
        (value_of (named m.now id.number) (json d.now)) result }
    ensures sound { IsModule m.now }
{
    // A module that was read has types within the profile's bounds alone, of which the laws of JSON speak.
    let _ = m.name();
    form_in(alloc, m, form_of(m, id), d)
}

/// The value of a type of a form that JSON shows.
#[cycle(read)]
fn form_in<'m>(
    alloc: Global,
    m: &'m Module,
    form: NamedForm<'m>,
    d: &Json,
) -> Result<Value, Refusal<'m>>
    requires inside { IsFormInside (length m.now.nodes) form }
    requires small { IsFormSmall form }
    ensures { ReadsAs (λ p. demands p (form_named (named m.now) form.entry) (json d.now))
        (value_of (form_named (named m.now) form.entry) (json d.now)) result }
{
    match form {
        NamedForm::Boolean => boolean_in(alloc, d),
        NamedForm::Integer {
            low,
            high,
            extensible,
        } => whole_number_in(alloc, low, high, extensible, d),
        NamedForm::Enumerated(names) => enumerated_in(alloc, names, d),
        NamedForm::BitString(size) => bit_string_in(alloc, size, d),
        NamedForm::OctetString(size) => octet_string_in(alloc, size, d),
        NamedForm::PrintableString(size) => printable_string_in(alloc, size, d),
        NamedForm::Sequence(members) => sequence_in(alloc, m, members, d),
        NamedForm::Choice(members) => choice_in(alloc, m, members, d),
        NamedForm::SequenceOf { size, element } => list_in(alloc, m, size, element, d),
        NamedForm::Container(rows) => container_in(alloc, m, rows, d),
        NamedForm::Pdu(rows) => message_in(alloc, m, rows, d),
    }
}

/// The components that an object has.
#[cycle(read)]
fn components_in<'m>(
    alloc: Global,
    m: &'m Module,
    parts: &'m [Component],
    members: &Members,
) -> Result<OptValues, Refusal<'m>>
    requires { AreBelow (length m.now.nodes) parts.now }
    ensures { Reads (λ p. component_demands p (parts_with (named m.now) parts.now) (members_view members.now.entries))
        (λ values. options_view values.items
        ≡ components_in (parts_with (named m.now) parts.now) (members_view members.now.entries)) result }
{
    let mut values = Vec::new(alloc);
    for part in parts {
        let name = part.name.as_slice();
        let Some(d) = member(members, name) else {
            put_absent(alloc, &mut values, part)?;
            continue;
        };
        let asked = value_in(alloc, m, part.definition, d);
        put_present(&mut values, inside(asked, Step::Component(name)))?;
    }
    Ok(values)
}

/// The list of additions: null for one that isn't there, and octets for one that has no name.
#[cycle(read)]
fn additions_in<'m>(
    alloc: Global,
    m: &'m Module,
    parts: &'m [Component],
    d: &Json,
) -> Result<Additions<'m>, Refusal<'m>>
    requires { AreBelow (length m.now.nodes) parts.now }
    ensures { ReadsAdditions (λ p. listed (named m.now) parts.now (json d.now) p) (λ p. opened (named m.now) parts.now (json d.now) p)
        (added (named m.now) parts.now (json d.now)) result }
{
    let Json::Array(items) = d else {
        return Err(shape(alloc));
    };
    let items = items.as_slice();
    let mut values = Vec::new(alloc);
    let mut unfit = None;
    for (i, item) in items.iter().enumerate() {
        if item.is_null() {
            values.push(None)?;
            continue;
        }
        let Some(part) = parts.get(i) else {
            put_present(&mut values, raw_in(alloc, item))?;
            continue;
        };
        let step = Step::Component(part.name.as_slice());
        let asked = value_in(alloc, m, part.definition, item);
        unfit = first_unfit(unfit, is_fitting(m, part.definition, &asked), step);
        put_present(&mut values, inside(asked, step))?;
    }
    if !are_additions(items) {
        return Err(range(alloc));
    }
    Ok(Additions { values, unfit })
}

#[cycle(read)]
#[tactic(auto, unfolding(json_defs::specs::Demands::demands))]
fn sequence_in<'m>(
    alloc: Global,
    m: &'m Module,
    members: &'m Extensible<Component>,
    d: &Json,
) -> Result<Value, Refusal<'m>>
    requires { PartsBelow (length m.now.nodes) members.now }
    ensures { ReadsAs (λ p. demands p (sequence_named (named m.now) members.now) (json d.now))
        (value_of (sequence_named (named m.now) members.now) (json d.now)) result }
{
    let Json::Object(object) = d else {
        return Err(shape(alloc));
    };
    let parts = members.root.as_slice();
    let extensible = members.additions.is_some();
    let root = components_in(alloc, m, parts, object)?;
    let Some(more) = additions_member(extensible, object) else {
        let none = Additions {
            values: Vec::new(alloc),
            unfit: None,
        };
        return sequence(alloc, extensible, parts, object, root, Ok(none));
    };
    let asked = additions_in(alloc, m, named(&members.additions), more);
    sequence(alloc, extensible, parts, object, root, asked)
}

#[cycle(read)]
#[tactic(auto, unfolding(json_defs::specs::Demands::demands))]
fn choice_in<'m>(
    alloc: Global,
    m: &'m Module,
    members: &'m Extensible<Component>,
    d: &Json,
) -> Result<Value, Refusal<'m>>
    requires inside { PartsBelow (length m.now.nodes) members.now }
    requires few { ArePartsFew members.now }
    ensures { ReadsAs (λ p. demands p (choice_named (named m.now) members.now) (json d.now))
        (value_of (choice_named (named m.now) members.now) (json d.now)) result }
{
    let Json::Object(object) = d else {
        return Err(shape(alloc));
    };
    let root = members.root.as_slice();
    if let Some((i, d)) = part_in(root, object) {
        let step = Step::Component(root[i].name.as_slice());
        let asked = inside(value_in(alloc, m, root[i].definition, d), step);
        return alternative(alloc, i as u32, alone(alloc, object, asked));
    }
    let additions = named(&members.additions);
    if let Some((i, d)) = part_in(additions, object) {
        let id = additions[i].definition;
        let step = Step::Component(additions[i].name.as_slice());
        let asked = alone(alloc, object, inside(value_in(alloc, m, id, d), step));
        return alternative(
            alloc,
            (root.len() + i) as u32,
            held(alloc, m, id, Some(step), asked),
        );
    }
    let known = (root.len() + additions.len()) as u32;
    let room = (64 - additions.len()) as u64;
    past_alternative(alloc, members.additions.is_some(), known, room, object)
}

#[cycle(read)]
#[tactic(auto, unfolding(json_defs::specs::Demands::demands))]
fn list_in<'m>(
    alloc: Global,
    m: &'m Module,
    size: Option<Size>,
    element: TypeId,
    d: &Json,
) -> Result<Value, Refusal<'m>>
    requires { element.number < length m.now.nodes }
    ensures { ReadsAs (λ p. demands p (sequence_of size (named m.now element.number)) (json d.now))
        (value_of (sequence_of size (named m.now element.number)) (json d.now)) result }
{
    let Json::Array(items) = d else {
        return Err(shape(alloc));
    };
    let items = items.as_slice();
    let mut values = Vec::new(alloc);
    for (i, item) in items.iter().enumerate() {
        let asked = value_in(alloc, m, element, item);
        put_member(&mut values, inside(asked, Step::Member(i as u64)))?;
    }
    if !is_member_count_of(size, items.len()) {
        return Err(range(alloc));
    }
    Ok(Value::List(values))
}

#[cycle(read)]
#[tactic(auto, unfolding(json_defs::specs::Demands::demands))]
fn container_in<'m>(
    alloc: Global,
    m: &'m Module,
    rows: &'m [IeRow],
    d: &Json,
) -> Result<Value, Refusal<'m>>
    requires { IesBelow (length m.now.nodes) rows.now }
    ensures { ReadsAs (λ p. demands p (container (rows_with (named m.now) rows.now)) (json d.now))
        (value_of (container (rows_with (named m.now) rows.now)) (json d.now)) result }
{
    let Json::Array(items) = d else {
        return Err(shape(alloc));
    };
    let items = items.as_slice();
    let mut ies = Vec::new(alloc);
    for item in items {
        let head = element_head(alloc, item)?;
        let asked = contents_in(alloc, m, row_type(head.id, rows), b"id", head.members);
        put_element(&mut ies, head, asked)?;
    }
    if items.len() >= 65536 {
        return Err(range(alloc));
    }
    if !are_in_order(rows, ies.as_slice()) {
        return Err(range(alloc));
    }
    Ok(Value::Ies(ies))
}

/// What an information element or the body of a message holds: a value of the type that its set gives, or octets of what isn't known.
/// `number` is the key of its id or its code.
#[cycle(read)]
fn contents_in<'m>(
    alloc: Global,
    m: &'m Module,
    id: Option<TypeId>,
    number: &[u8],
    members: &Members,
) -> Result<Value, Refusal<'m>>
    requires { OptionBelow (length m.now.nodes) id }
    ensures { ReadsAs (λ p. contents_demands (named m.now) id p (criticality_key ∷ number.now ∷ []) (members_view members.now.entries))
        (contents_read (named m.now) id (members_view members.now.entries)) result }
{
    let Some(id) = id else {
        return unknown_in(alloc, number, members);
    };
    let Some(d) = member(members, b"value") else {
        return Err(shape(alloc));
    };
    let asked = keyed(alloc, b"value", number, members, value_in(alloc, m, id, d));
    held(alloc, m, id, None, asked)
}

#[cycle(read)]
#[tactic(auto, unfolding(json_defs::specs::Demands::demands))]
fn message_in<'m>(
    alloc: Global,
    m: &'m Module,
    rows: &'m [ProcedureRow],
    d: &Json,
) -> Result<Value, Refusal<'m>>
    requires { ProceduresBelow (length m.now.nodes) rows.now }
    ensures { ReadsAs (λ p. demands p (pdu (procedures_with (named m.now) rows.now)) (json d.now))
        (value_of (pdu (procedures_with (named m.now) rows.now)) (json d.now)) result }
{
    let Json::Object(members) = d else {
        return Err(shape(alloc));
    };
    let Some((outcome, body)) = outcome_in(members) else {
        return past_message(alloc, members);
    };
    let head = message_head(alloc, outcome, body)?;
    let definition = message_type(outcome, head.code, rows);
    let asked = contents_in(alloc, m, definition, b"procedureCode", head.members);
    alone(alloc, members, message(alloc, outcome, head, asked))
}
