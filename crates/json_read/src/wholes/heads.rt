//! The heads of information elements and of messages.

ghost use Rattle.std.specs.Prelude.{◌≡◌, ◌∷◌, []};
ghost use Rattle.serde_json.specs.View.{view as json, members_view};
ghost use Rattle.aper_defs.specs.Fields as ways;
ghost use Rattle.json_defs.specs.Members.{integer_in, member_of};
ghost use Rattle.json_fields.specs.simple.Answers.{Reads};
ghost use Rattle.json_defs.specs.Demands.{id_in};
ghost use Rattle.serde_json.specs.Data.{object};
ghost use Rattle.json_read.specs.wholes.Heads.{element_id_demands, element_head_demands, IsElementHead, body_head_demands, IsBodyHead};

use aper_frames::Step;
use json_fields::members::kinds::integer_in;
use json_fields::members::members::{Members, criticality_in, member};
use json_fields::simple::refusal::{Refusal, range, shape, under};
use serde_json::Value as Json;
use std::alloc::Global;

/// What an information element has besides its contents.
#[derive(Clone, Copy)]
pub struct ElementHead<'d> {
    pub id: u16,
    pub criticality: u8,
    pub members: &'d Members,
}

/// What the body of a message has besides its contents.
#[derive(Clone, Copy)]
pub struct BodyHead<'d> {
    pub code: u8,
    pub criticality: u8,
    pub members: &'d Members,
}

/// The number that an object has as the member of a name.
fn number_in(members: &Members, name: &[u8]) -> Option<i128>
    ensures { result ≡ integer_in (member_of name.now (members_view members.now.entries)) }
{
    match member(members, name) {
        Some(d) => integer_in(d),
        None => None,
    }
}

/// The id of an information element, and its members.
fn element_id<'d, 'm>(alloc: Global, d: &'d Json) -> Result<(u16, &'d Members), Refusal<'m>>
    ensures { Reads (λ p. element_id_demands p (json d.now))
        (λ found. (json d.now ≡ object (members_view found.1.now.entries)) × (found.0 ≡ id_in (json d.now))) result }
{
    let Json::Object(members) = d else {
        return Err(shape(alloc));
    };
    let Some(id) = number_in(members, b"id") else {
        return Err(shape(alloc));
    };
    if !(0 <= id && id <= 65535) {
        return Err(range(alloc));
    }
    Ok((id as u16, members))
}

/// The head of an information element: of one that is no object, or has no number as its id, the container is told.
pub fn element_head<'d, 'm>(alloc: Global, d: &'d Json) -> Result<ElementHead<'d>, Refusal<'m>>
    ensures { Reads (λ p. element_head_demands p (json d.now)) (IsElementHead (json d.now)) result }
{
    let (id, members) = element_id(alloc, d)?;
    let Some(criticality) = criticality_in(members) else {
        return Err(under(shape(alloc), Step::Element(id)));
    };
    Ok(ElementHead {
        id,
        criticality,
        members,
    })
}

/// The head of the body of a message.
fn body_head<'d, 'm>(alloc: Global, d: &'d Json) -> Result<BodyHead<'d>, Refusal<'m>>
    ensures { Reads (λ p. body_head_demands p (json d.now)) (IsBodyHead (json d.now)) result }
{
    let Json::Object(members) = d else {
        return Err(shape(alloc));
    };
    let Some(code) = number_in(members, b"procedureCode") else {
        return Err(shape(alloc));
    };
    if !(0 <= code && code <= 255) {
        return Err(range(alloc));
    }
    let Some(criticality) = criticality_in(members) else {
        return Err(shape(alloc));
    };
    Ok(BodyHead {
        code: code as u8,
        criticality,
        members,
    })
}

/// The head of the body of a message of this outcome.
pub fn message_head<'d, 'm>(
    alloc: Global,
    outcome: u32,
    d: &'d Json,
) -> Result<BodyHead<'d>, Refusal<'m>>
    ensures { Reads (λ p. body_head_demands (ways.outcome outcome ∷ p) (json d.now)) (IsBodyHead (json d.now)) result }
{
    match body_head(alloc, d) {
        Ok(head) => Ok(head),
        Err(refusal) => Err(under(refusal, Step::Outcome(outcome))),
    }
}
