//! The value of a message from its information elements, which stand in the order in which they are given.

ghost use Rattle.std.specs.Prelude.{◌≡◌, ◌++◌, map, IfOk, OnOk};
ghost use Rattle.aper_defs.specs.Values.{no_options};
ghost use Rattle.aper_values.specs.Views.{view, options_view, element_view, ies_view};
ghost use Rattle.message_values.specs.Written.{put_one, put_all, message_of};

use crate::elements::ElementName;
use aper_values::make::{components, elements, message};
use aper_values::value::{Element, Ies, OptValues, Value};
use gnb_types::items::Memory;
use std::alloc::Global;

/// What a message has of an information element.
pub type Field = (ElementName, Option<Value>);

/// The outcomes of a procedure, as a PDU counts them.
pub const INITIATING: u32 = 0;

pub const SUCCESSFUL: u32 = 1;

pub const UNSUCCESSFUL: u32 = 2;

/// The criticality reject (TS 38.413, 9.1.1).
pub const REJECT: u8 = 0;

/// Where a message stands in its PDU: its procedure's code, and its outcome.
#[derive(Clone, Copy)]
pub struct Place {
    pub code: u8,
    pub outcome: u32,
}

/// An element, where it is there.
fn put(ies: &mut Ies, field: Field) -> Result<(), Memory>
    ensures { OnOk result (map element_view ies.new.items ≡ map element_view ies.old.items ++ put_one field) }
{
    let (name, content) = field;
    if let Some(body) = content {
        ies.push(Element {
            id: name.id(),
            criticality: REJECT,
            body,
        })?;
    }
    Ok(())
}

/// The elements that are there.
fn put_all(alloc: Global, fields: Vec<Field>) -> Result<Ies, Memory>
    ensures { IfOk result (λ ies. ies_view ies.items ≡ put_all fields.items) }
{
    let mut ies = Vec::new(alloc);
    for field in fields {
        put(&mut ies, field)?;
    }
    Ok(ies)
}

/// A message with no additions.
pub fn message_of<const N: usize>(
    alloc: Global,
    place: Place,
    fields: [Field; N],
) -> Result<Value, Memory>
    ensures { IfOk result (λ v. view v ≡ message_of place.code place.outcome (put_all fields.entry) no_options) }
{
    Ok(extended_message(alloc, place, fields, Vec::new(alloc))?)
}

/// A message with additions.
pub fn extended_message<const N: usize>(
    alloc: Global,
    place: Place,
    fields: [Field; N],
    additions: OptValues,
) -> Result<Value, Memory>
    ensures { IfOk result (λ v. view v ≡ message_of place.code place.outcome (put_all fields.entry) (options_view additions.items)) }
{
    let fields = Vec::from_array(alloc, fields)?;
    let ies = put_all(alloc, fields)?;
    let root = Vec::from_array(alloc, [Some(elements(ies))])?;
    let body = components(root, additions);
    Ok(message(alloc, place.outcome, place.code, REJECT, body)?)
}
