//! What comes past the last that has a name, and objects of one member.

ghost use Rattle.std.specs.Prelude.{◌≡◌, ◌==◌};
ghost use Rattle.serde_json.specs.View.{view as json, members_view};
ghost use Rattle.aper_values.specs.Views.{view};
ghost use Rattle.json_defs.specs.Members.{member_count};
ghost use Rattle.json_defs.specs.Readings.{past_in, past_raw_in};
ghost use Rattle.json_defs.specs.Demands.{past_demands};
ghost use Rattle.json_fields.specs.simple.Answers.{Reads, AreTwo, IsPair};

use crate::members::kinds::natural_in;
use crate::members::members::Members;
use crate::simple::refusal::{Refusal, shape};
use crate::simple::simple::raw_in;
use aper_values::value::Value;
use serde_json::Value as Json;
use std::alloc::Global;

/// Whether an object has one member.
#[tactic(auto, using(crate::proofs::simple::Pairs::count_is))]
pub fn is_alone(members: &Members) -> bool
    ensures { result ≡ (member_count (members_view members.now.entries) == 1) }
{
    members.len() == 1
}

/// The two of a list of two.
fn two_of(items: &[Json]) -> Option<(&Json, &Json)>
    ensures { AreTwo items.now result }
{
    let Some(first) = items.get(0) else {
        return None;
    };
    let Some(second) = items.get(1) else {
        return None;
    };
    if items.get(2).is_some() {
        return None;
    }
    Some((first, second))
}

/// The two values of a list of two.
fn pair_of(d: &Json) -> Option<(&Json, &Json)>
    ensures { IsPair (json d.now) result }
{
    match d {
        Json::Array(items) => two_of(items),
        _ => None,
    }
}

/// How far past the last that has a name, and the octets, as a list of two.
pub fn past_in<'m>(alloc: Global, room: u64, d: &Json) -> Result<(u64, Value), Refusal<'m>>
    ensures { Reads (λ p. past_demands p room (json d.now))
        (λ read. (read.0 ≡ past_in (json d.now)) × (view read.1 ≡ past_raw_in (json d.now))) result }
{
    let Some((number, octets)) = pair_of(d) else {
        return Err(shape(alloc));
    };
    let Some(past) = natural_in(number) else {
        return Err(shape(alloc));
    };
    if past >= room {
        return Err(shape(alloc));
    }
    let octets = raw_in(alloc, octets)?;
    Ok((past, octets))
}
