//! Alternatives.

ghost use Rattle.std.specs.Prelude.{◌≡◌, ◌<◌, length, option_map, IfSome};
ghost use Rattle.serde_json.specs.View.{view as json, members_view};
ghost use Rattle.json_fields.specs.parts.Parts.{part_in};

use crate::members::members::{Members, member};
use asn1_syntax::types::Component;
use serde_json::Value as Json;

/// The first of these parts whose name an object has as a member: its place, and the member.
pub fn part_in<'a>(parts: &[Component], members: &'a Members) -> Option<(usize, &'a Json)>
    ensures part { option_map (λ found. (found.0, json found.1.now)) result
        ≡ part_in parts.now 0 (members_view members.now.entries) }
    ensures inside { IfSome result (λ found. found.0 < length parts.now) }
{
    for (i, part) in parts.iter().enumerate() {
        if let Some(d) = member(members, part.name.as_slice()) {
            return Some((i, d));
        }
    }
    None
}
