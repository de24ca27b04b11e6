//! What stands before the members of a value, and which may be there.

ghost use Rattle.std.specs.Prelude.{◌≡◌, ◌↔◌, IsTrue};
ghost use Rattle.aper_defs.specs.Layouts.{mark_fields};
ghost use Rattle.aper_defs.specs.Membership.{AreAdditions, some_present};
ghost use Rattle.aper_values.specs.Views.{options_view};
ghost use Rattle.aper_fields.specs.widths.Ends.{Ends};
ghost use Rattle.aper.specs.measuring.Heads.{optional_count};

use aper_fields::widths::place::{Place, passed};
use aper_values::value::Value;
use asn1_syntax::types::Component;

/// How many components are OPTIONAL: each has a bit that says whether it is there.
pub fn optional_count(parts: &[Component]) -> usize
    ensures { result ≡ optional_count parts.now }
{
    let mut count = 0;
    for part in parts {
        if part.optional {
            count += 1;
        }
    }
    count
}

/// None, or where the type is extensible 1 to 64 of which one at least is there.
pub fn are_additions(extensible: bool, additions: &[Option<Value>]) -> bool
    ensures { IsTrue result ↔ AreAdditions extensible (options_view additions.now) }
{
    if additions.is_empty() {
        return true;
    }
    if !extensible || additions.len() > 64 {
        return false;
    }
    is_some_there(additions)
}

fn is_some_there(additions: &[Option<Value>]) -> bool
    ensures { result ≡ some_present (options_view additions.now) }
{
    for addition in additions {
        if addition.is_some() {
            return true;
        }
    }
    false
}

/// The place after the bits that say which additions are there, where there may be any.
pub fn after_marks(place: Place, additions: &[Option<Value>]) -> Place
    ensures { Ends place result (λ p. mark_fields p (options_view additions.now)) }
{
    if additions.is_empty() {
        return place;
    }
    passed(place, 7 + additions.len() as u128)
}
