//! Values: whether they are of a type, and where their fields end.

ghost use Rattle.std.specs.Prelude.{◌≡◌, ◌<◌, length, Option};
ghost use Rattle.asn1_syntax.specs.declared.types.definition.Size.{Size};
ghost use Rattle.asn1_defs.specs.Links.{AreBelow, OptionBelow, PartsBelow, IesBelow, ProceduresBelow};
ghost use Rattle.aper_defs.specs.Bounds.{IsBounded, IsSizeBounded};
ghost use Rattle.aper_defs.specs.Trees.{container, pdu, sequence_of};
ghost use Rattle.aper_values.specs.types.Forms.{form_tree, IsFormInside};
ghost use Rattle.aper_values.specs.types.Types.{tree, rows_of, procedures_of, sequence_tree, choice_tree};
ghost use Rattle.aper_values.specs.Views.{view};
ghost use Rattle.aper.specs.measuring.Measured.{ValueMeasured, InsideMeasured, ComponentsMeasured, AdditionsMeasured};

use crate::measuring::bounds::{is_index_of, is_member_count_of};
use crate::measuring::contents::{opened_end, raw_end};
use crate::measuring::heads::{after_marks, are_additions, optional_count};
use crate::measuring::order::{has_mandatory, rows_left};
use crate::measuring::simple::{
    bit_string_end, boolean_end, enumerated_end, integer_end, octet_string_end,
    printable_string_end,
};
use aper_fields::members::rows::{message_type, named, part_type, row_type};
use aper_fields::widths::numbers::{after_extension, after_index};
use aper_fields::widths::place::{Place, padded, passed};
use aper_fields::widths::strings::after_count;
use aper_values::types::{Form, form_of};
use aper_values::value::Value;
use asn1_module::Module;
use asn1_syntax::assignments::{IeRow, ProcedureRow};
use asn1_syntax::types::{Component, Extensible, Size, TypeId};

/// The place after a value's fields, where they are put from a place on; none where it isn't one of the type.
#[cycle(measure)]
pub(crate) fn value_end(m: &Module, id: TypeId, value: &Value, place: Place) -> Option<Place>
    requires { id.number < length m.now.nodes }
    ensures { ValueMeasured (tree m.now id.number) (view value.now) place result }
{
    form_end(m, form_of(m, id), value, place)
}

/// The place after a value of a type of a form.
#[cycle(measure)]
#[tactic(auto, unfolding(aper_defs::specs::Bounds::IsBounded))]
fn form_end(m: &Module, form: Form<'_>, value: &Value, place: Place) -> Option<Place>
    requires inside { IsFormInside (length m.now.nodes) form }
    requires bounded { IsBounded (form_tree (tree m.now) form) }
    ensures { ValueMeasured (form_tree (tree m.now) form.entry) (view value.now) place result }
{
    match form {
        Form::Boolean => boolean_end(value, place),
        Form::Integer {
            low,
            high,
            extensible,
        } => integer_end(low, high, extensible, value, place),
        Form::Enumerated { names, extensible } => enumerated_end(names, extensible, value, place),
        Form::BitString(size) => bit_string_end(size, value, place),
        Form::OctetString(size) => octet_string_end(size, value, place),
        Form::PrintableString(size) => printable_string_end(size, value, place),
        Form::Sequence(members) => sequence_end(m, members, value, place),
        Form::Choice(members) => choice_end(m, members, value, place),
        Form::SequenceOf { size, element } => list_end(m, size, element, value, place),
        Form::Container(rows) => container_end(m, rows, value, place),
        Form::Pdu(rows) => message_end(m, rows, value, place),
    }
}

/// The place after a value in an open type whose type a row gives, or after octets of what no row has.
#[cycle(measure)]
fn inside_end(m: &Module, id: Option<TypeId>, value: &Value, place: Place) -> Option<Place>
    requires { OptionBelow (length m.now.nodes) id }
    ensures { InsideMeasured (tree m.now) id (view value.now) place result }
{
    match id {
        Some(id) => {
            let contents = value_end(m, id, value, 0)?;
            opened_end(contents, place)
        }
        None => raw_end(value, place),
    }
}

/// The place after the components that are there; none where a mandatory one is absent.
#[cycle(measure)]
fn components_end(
    m: &Module,
    parts: &[Component],
    values: &[Option<Value>],
    place: Place,
) -> Option<Place>
    requires { AreBelow (length m.now.nodes) parts.now }
    ensures { ComponentsMeasured (tree m.now) parts.now values.now place result }
{
    if parts.len() != values.len() {
        return None;
    }
    let mut place = place;
    for (i, value) in values.iter().enumerate() {
        let Some(value) = value else {
            if !parts[i].optional {
                return None;
            }
            continue;
        };
        place = value_end(m, parts[i].definition, value, place)?;
    }
    Some(place)
}

/// The place after the additions that are there: those past the named ones aren't known.
#[cycle(measure)]
fn additions_end(
    m: &Module,
    parts: &[Component],
    additions: &[Option<Value>],
    place: Place,
) -> Option<Place>
    requires { AreBelow (length m.now.nodes) parts.now }
    ensures { AdditionsMeasured (tree m.now) parts.now additions.now place result }
{
    let mut place = place;
    for (i, addition) in additions.iter().enumerate() {
        let Some(addition) = addition else {
            continue;
        };
        place = inside_end(m, part_type(parts, i), addition, place)?;
    }
    Some(place)
}

#[cycle(measure)]
#[tactic(auto, unfolding(aper_defs::specs::Membership::Has))]
fn sequence_end(
    m: &Module,
    members: &Extensible<Component>,
    value: &Value,
    place: Place,
) -> Option<Place>
    requires { PartsBelow (length m.now.nodes) members.now }
    ensures { ValueMeasured (sequence_tree (tree m.now) members.now) (view value.now) place result }
{
    let Value::Seq { root, additions } = value else {
        return None;
    };
    let parts = members.root.as_slice();
    let is_extensible = members.additions.is_some();
    if !are_additions(is_extensible, additions) {
        return None;
    }
    let flags = passed(
        after_extension(place, is_extensible),
        optional_count(parts) as u128,
    );
    let components = components_end(m, parts, root, flags)?;
    let marks = after_marks(components, additions);
    additions_end(m, named(&members.additions), additions, marks)
}

#[cycle(measure)]
#[tactic(auto, unfolding(aper_defs::specs::Membership::Has))]
fn choice_end(
    m: &Module,
    members: &Extensible<Component>,
    value: &Value,
    place: Place,
) -> Option<Place>
    requires { PartsBelow (length m.now.nodes) members.now }
    ensures { ValueMeasured (choice_tree (tree m.now) members.now) (view value.now) place result }
{
    let Value::Choice(index, body) = value else {
        return None;
    };
    let index = *index as usize;
    let root = members.root.as_slice();
    let is_extensible = members.additions.is_some();
    if !is_index_of(root.len(), is_extensible, index) {
        return None;
    }
    let begin = after_index(place, root.len(), is_extensible, index);
    if index < root.len() {
        return value_end(m, root[index].definition, body, begin);
    }
    let addition = part_type(named(&members.additions), index - root.len());
    inside_end(m, addition, body, begin)
}

#[cycle(measure)]
#[tactic(auto, unfolding(aper_defs::specs::Membership::Has))]
fn list_end(
    m: &Module,
    size: Option<Size>,
    element: TypeId,
    value: &Value,
    place: Place,
) -> Option<Place>
    requires inside { element.number < length m.now.nodes }
    requires bounded { IsSizeBounded size }
    ensures { ValueMeasured (sequence_of size (tree m.now element.number)) (view value.now) place result }
{
    let Value::List(members) = value else {
        return None;
    };
    if !is_member_count_of(size, members.len()) {
        return None;
    }
    let mut place = after_count(place, size, members.len());
    for member in members {
        place = value_end(m, element, member, place)?;
    }
    Some(place)
}

#[cycle(measure)]
#[tactic(auto, unfolding(aper_defs::specs::Membership::Has))]
fn container_end(m: &Module, rows: &[IeRow], value: &Value, place: Place) -> Option<Place>
    requires { IesBelow (length m.now.nodes) rows.now }
    ensures { ValueMeasured (container (rows_of (tree m.now) rows.now)) (view value.now) place result }
{
    let Value::Ies(ies) = value else {
        return None;
    };
    if ies.len() >= 65536 {
        return None;
    }
    let mut place = passed(padded(place), 16);
    let mut left = rows;
    for ie in ies {
        if ie.criticality > 2 {
            return None;
        }
        let definition = row_type(ie.id, rows);
        left = rows_left(definition.is_some(), left, ie.id)?;
        place = inside_end(m, definition, &ie.body, passed(padded(place), 18))?;
    }
    if has_mandatory(left) {
        return None;
    }
    Some(place)
}

#[cycle(measure)]
#[tactic(auto, unfolding(aper_defs::specs::Membership::Has))]
fn message_end(m: &Module, rows: &[ProcedureRow], value: &Value, place: Place) -> Option<Place>
    requires { ProceduresBelow (length m.now.nodes) rows.now }
    ensures { ValueMeasured (pdu (procedures_of (tree m.now) rows.now)) (view value.now) place result }
{
    let Value::Pdu {
        outcome,
        code,
        criticality,
        body,
    } = value
    else {
        return None;
    };
    if *outcome >= 3 {
        if *outcome >= 67 || *code != 0 || *criticality != 0 {
            return None;
        }
        return raw_end(body, passed(place, 8));
    }
    if *criticality > 2 {
        return None;
    }
    let head = passed(padded(passed(place, 3)), 10);
    inside_end(m, message_type(*outcome, *code, rows), body, head)
}
