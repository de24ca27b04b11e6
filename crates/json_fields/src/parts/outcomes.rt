//! Outcomes of messages.

ghost use Rattle.std.specs.Prelude.{◌≡◌, option_map};
ghost use Rattle.serde_json.specs.View.{view as json, members_view};
ghost use Rattle.json_defs.specs.Members.{outcomes};
ghost use Rattle.json_defs.specs.Readings.{outcome_in};

use crate::members::members::{Members, member};
use serde_json::Value as Json;

/// The first outcome of a message whose name an object has as a member: its number, and the member.
pub fn outcome_in(members: &Members) -> Option<(u32, &Json)>
    ensures { option_map (λ found. (found.0, json found.1.now)) result
        ≡ outcome_in outcomes 0 (members_view members.now.entries) }
{
    if let Some(d) = member(members, b"initiatingMessage") {
        return Some((0, d));
    }
    if let Some(d) = member(members, b"successfulOutcome") {
        return Some((1, d));
    }
    match member(members, b"unsuccessfulOutcome") {
        Some(d) => Some((2, d)),
        None => None,
    }
}
