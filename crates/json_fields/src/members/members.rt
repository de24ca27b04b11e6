//! Members of objects.

ghost use Rattle.std.specs.Prelude.{◌≡◌, ◌∷◌, [], ℕ, option_map};
ghost use Rattle.serde_json.specs.Find.{get_member};
ghost use Rattle.serde_json.specs.View.{view, members_view};
ghost use Rattle.json_defs.specs.Named.{Named};
ghost use Rattle.json_defs.specs.Members.{are_keys_among, is_among, criticality_in, member_of, criticality_key};
ghost use Rattle.json_defs.specs.Shown.{names_of, keys_of};
ghost use Rattle.json_defs.specs.type_defs.Types.{parts_with};

use crate::members::names::{criticality_of, same_text};
use asn1_syntax::types::Component;
use serde_json::{Map, Value as Json};
use std::str;

/// The members of an object.
pub type Members = Map<String, Json>;

/// The member with a name.
pub fn member<'a>(members: &'a Members, name: &[u8]) -> Option<&'a Json>
    ensures { option_map (λ d. view d.now) result
        ≡ get_member name.now (members_view members.now.entries) }
{
    match str::from_utf8(name) {
        Ok(name) => members.get(name),
        Err(_) => None,
    }
}

/// Whether a name is one of these parts'.
#[tactic(auto, using(crate::proofs::members::Words::parts_turn, crate::proofs::members::Words::parts_found))]
fn is_part(parts: &[Component], name: &[u8]) -> bool
    ensures { (of : ℕ → Named) → result ≡ is_among (names_of (parts_with of parts.now)) name.now }
{
    for part in parts {
        if same_text(part.name.as_slice(), name) {
            return true;
        }
    }
    false
}

/// Whether a SEQUENCE of these components may have a member of this name: where it is extensible also `...`.
#[tactic(auto, using(crate::proofs::members::Words::among_here, crate::proofs::members::Words::among_others))]
fn is_key(extensible: bool, parts: &[Component], name: &[u8]) -> bool
    ensures { (of : ℕ → Named) → result ≡ is_among (keys_of extensible (parts_with of parts.now)) name.now }
{
    if !extensible {
        return is_part(parts, name);
    }
    if same_text(b"...", name) {
        return true;
    }
    is_part(parts, name)
}

/// Whether each member of an object is one that a SEQUENCE of these components may have.
pub fn are_keys(extensible: bool, parts: &[Component], members: &Members) -> bool
    ensures { (of : ℕ → Named)
        → result ≡ are_keys_among (keys_of extensible (parts_with of parts.now))
        (members_view members.now.entries) }
{
    for (name, _) in members.iter() {
        if !is_key(extensible, parts, name.as_bytes()) {
            return false;
        }
    }
    true
}

/// Whether a name is the one of contents, of a criticality, or of a number.
#[tactic(auto, using(crate::proofs::members::Words::among_here, crate::proofs::members::Words::among_others))]
fn is_body_key(contents: &[u8], number: &[u8], name: &[u8]) -> bool
    ensures { result ≡ is_among (contents.now ∷ criticality_key ∷ number.now ∷ []) name.now }
{
    if same_text(contents, name) {
        return true;
    }
    if same_text(b"criticality", name) {
        return true;
    }
    same_text(number, name)
}

/// Whether an object has, besides a criticality, at most the members of these two names.
pub fn are_body_keys(contents: &[u8], number: &[u8], members: &Members) -> bool
    ensures { result ≡ are_keys_among (contents.now ∷ criticality_key ∷ number.now ∷ [])
        (members_view members.now.entries) }
{
    for (name, _) in members.iter() {
        if !is_body_key(contents, number, name.as_bytes()) {
            return false;
        }
    }
    true
}

/// The criticality that an object has as a member.
pub fn criticality_in(members: &Members) -> Option<u8>
    ensures { result ≡ criticality_in (member_of criticality_key (members_view members.now.entries)) }
{
    match member(members, b"criticality") {
        Some(Json::String(name)) => criticality_of(name.as_bytes()),
        _ => None,
    }
}
