//! Names of an ENUMERATED.

ghost use Rattle.std.specs.Prelude.{◌≡◌, ◌≤◌, length};
ghost use Rattle.serde_json.specs.Data.{object};
ghost use Rattle.serde_json.specs.View.{view as json, members_view};
ghost use Rattle.asn1_syntax.specs.types.Members.{additions_of};
ghost use Rattle.aper_values.specs.Views.{view};
ghost use Rattle.json_defs.specs.Readings.{value_of};
ghost use Rattle.json_defs.specs.Demands.{demands};
ghost use Rattle.json_fields.specs.types.Forms.{enumerated_named};
ghost use Rattle.json_fields.specs.simple.Answers.{Reads, IsIndex};

use crate::members::kinds::natural_in;
use crate::members::members::{Members, member};
use crate::members::names::place_of;
use crate::simple::past::is_alone;
use crate::simple::refusal::{Refusal, shape};
use aper_values::value::Value;
use asn1_syntax::types::Extensible;
use gnb_types::octets::Octets;
use serde_json::Value as Json;
use std::alloc::Global;

/// How far past the last name.
fn index_past(names: &Extensible<Octets>, members: &Members) -> Option<u32>
    requires root { length names.now.root ≤ 256 }
    requires additions { length (additions_of names.now.additions) ≤ 64 }
    ensures { IsIndex names.now (object (members_view members.now.entries)) result }
{
    let Some(additions) = &names.additions else {
        return None;
    };
    if !is_alone(members) {
        return None;
    }
    let Some(d) = member(members, b"unknown") else {
        return None;
    };
    let Some(past) = natural_in(d) else {
        return None;
    };
    let room = 64 - additions.len() as u64;
    if past >= room {
        return None;
    }
    let known = (names.root.len() + additions.len()) as u32;
    Some(known + past as u32)
}

/// The place of a name, or one past them.
fn index_in(names: &Extensible<Octets>, d: &Json) -> Option<u32>
    requires root { length names.now.root ≤ 256 }
    requires additions { length (additions_of names.now.additions) ≤ 64 }
    ensures { IsIndex names.now (json d.now) result }
{
    match d {
        Json::String(name) => match place_of(names, name.as_bytes()) {
            Some(place) => Some(place as u32),
            None => None,
        },
        Json::Object(members) => index_past(names, members),
        _ => None,
    }
}

#[tactic(auto, unfolding(json_defs::specs::Demands::demands, json_defs::specs::Readings::value_of))]
pub fn enumerated_in<'m>(
    alloc: Global,
    names: &Extensible<Octets>,
    d: &Json,
) -> Result<Value, Refusal<'m>>
    requires root { length names.now.root ≤ 256 }
    requires additions { length (additions_of names.now.additions) ≤ 64 }
    ensures { Reads (λ p. demands p (enumerated_named names.now) (json d.now))
        (λ v. view v ≡ value_of (enumerated_named names.now) (json d.now)) result }
{
    match index_in(names, d) {
        Some(index) => Ok(Value::Enum(index)),
        None => Err(shape(alloc)),
    }
}
