//! Members of lists, one after the other, and which of them are there.

ghost use Rattle.std.specs.Prelude.{◌≡◌, ◌∷◌, ◌++◌, ◌&&◌, [], List, map, option_map, nat_le, None, Some, if◌then◌else◌};
ghost use Rattle.serde_json.specs.Find.{get_member};
ghost use Rattle.serde_json.specs.View.{view as json, items_view, members_view};
ghost use Rattle.aper_defs.specs.Fields.{Path};
ghost use Rattle.aper_defs.specs.Fields as ways;
ghost use Rattle.aper_defs.specs.Values.{Value as SeenValue};
ghost use Rattle.aper_values.specs.Views.{view, element_view};
ghost use Rattle.json_defs.specs.Members.{dots, item_count};
ghost use Rattle.json_defs.specs.Demands.{Demand, shape, any_told};
ghost use Rattle.json_fields.specs.simple.Answers.{Reads};
ghost use Rattle.json_read.specs.wholes.Reads.{ReadsAs, element_of};

use crate::wholes::contents::inside;
use crate::wholes::heads::ElementHead;
use aper_frames::Step;
use aper_values::value::{Element, Ies, OptValues, Value, Values};
use asn1_syntax::types::Component;
use json_fields::members::members::{Members, member};
use json_fields::simple::refusal::{Refusal, shape, under};
use serde_json::Value as Json;
use std::alloc::Global;

/// One more member of a SEQUENCE OF.
pub fn put_member<'m>(
    values: &mut Values,
    asked: Result<Value, Refusal<'m>>,
) -> Result<(), Refusal<'m>>
    ensures { (of : Path → List Demand) (v : SeenValue) → ReadsAs of v asked.entry
        → Reads of (λ _. map view values.new.items ≡ map view values.old.items ++ v ∷ []) result }
{
    values.push(asked?)?;
    Ok(())
}

/// One more component that is there.
pub fn put_present<'m>(
    values: &mut OptValues,
    asked: Result<Value, Refusal<'m>>,
) -> Result<(), Refusal<'m>>
    ensures { (of : Path → List Demand) (v : SeenValue) → ReadsAs of v asked.entry
        → Reads of (λ _. map (option_map view) values.new.items
        ≡ map (option_map view) values.old.items ++ Some v ∷ []) result }
{
    values.push(Some(asked?))?;
    Ok(())
}

/// One more component that isn't there.
pub fn put_absent<'m>(
    alloc: Global,
    values: &mut OptValues,
    part: &'m Component,
) -> Result<(), Refusal<'m>>
    ensures { Reads (λ p. shape (ways.component part.now.name ∷ p) part.now.optional ∷ [])
        (λ _. map (option_map view) values.new.items ≡ map (option_map view) values.old.items ++ None ∷ []) result }
{
    if !part.optional {
        return Err(under(shape(alloc), Step::Component(part.name.as_slice())));
    }
    values.push(None)?;
    Ok(())
}

/// One more information element.
pub fn put_element<'m>(
    ies: &mut Ies,
    head: ElementHead<'_>,
    asked: Result<Value, Refusal<'m>>,
) -> Result<(), Refusal<'m>>
    ensures { (of : Path → List Demand) (v : SeenValue) → ReadsAs of v asked.entry
        → Reads (λ p. of (ways.element head.entry.id ∷ p))
        (λ _. map element_view ies.new.items ≡ map element_view ies.old.items ++ element_of head.entry v ∷ []) result }
{
    let body = inside(asked, Step::Element(head.id))?;
    ies.push(Element {
        id: head.id,
        criticality: head.criticality,
        body,
    })?;
    Ok(())
}

/// Whether a list of additions has 1 to 64 of them, not all of them null.
pub fn are_additions(items: &[Json]) -> bool
    ensures { result ≡ (nat_le 1 (item_count (items_view items.now)) && nat_le (item_count (items_view items.now)) 64
        && any_told (items_view items.now)) }
{
    for item in items {
        if !item.is_null() {
            return items.len() <= 64;
        }
    }
    false
}

/// The list of additions that an object of an extensible SEQUENCE has.
pub fn additions_member(extensible: bool, members: &Members) -> Option<&Json>
    ensures { option_map (λ d. json d.now) result
        ≡ (if extensible then get_member dots (members_view members.now.entries) else None) }
{
    if extensible {
        member(members, b"...")
    } else {
        None
    }
}
