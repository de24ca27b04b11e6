//! The types that a type's parts and rows give.

ghost use Rattle.std.specs.Prelude.{◌≡◌};
ghost use Rattle.asn1_syntax.specs.types.Members.{additions_of};
ghost use Rattle.aper_fields.specs.members.Rows.{part_type, row_type, outcome_type, message_type};

use asn1_syntax::assignments::{IeRow, ProcedureRow};
use asn1_syntax::types::{Component, Items, TypeId};

/// The named additions.
pub fn named(additions: &Option<Items<Component>>) -> &[Component]
    ensures { result.now ≡ additions_of additions.now }
{
    match additions {
        Some(components) => components.as_slice(),
        None => &[],
    }
}

/// The type of the part at a place, counted from 0.
pub fn part_type(parts: &[Component], place: usize) -> Option<TypeId>
    ensures { result ≡ part_type place parts.now }
{
    match parts.get(place) {
        Some(part) => Some(part.definition),
        None => None,
    }
}

/// The type of the information element with this id.
#[tactic(auto, unfolding(crate::specs::members::Rows::row_type))]
pub fn row_type(id: u16, rows: &[IeRow]) -> Option<TypeId>
    ensures { result ≡ row_type id rows.now }
{
    for row in rows {
        if row.id == id {
            return Some(row.definition);
        }
    }
    None
}

fn outcome_type(outcome: u32, row: &ProcedureRow) -> Option<TypeId>
    ensures { result ≡ outcome_type outcome row.now }
{
    match outcome {
        0 => Some(row.initiating),
        1 => row.successful,
        _ => row.unsuccessful,
    }
}

/// The type of the message of this procedure's code for an outcome.
#[tactic(auto, unfolding(crate::specs::members::Rows::message_type))]
pub fn message_type(outcome: u32, code: u8, rows: &[ProcedureRow]) -> Option<TypeId>
    ensures { result ≡ message_type outcome code rows.now }
{
    for row in rows {
        if row.code == code {
            return outcome_type(outcome, row);
        }
    }
    None
}
