//! Types with others inside: whether two modules write them alike.

ghost use Rattle.std.specs.Prelude.{◌≡◌, ◌<◌, length, Some, option_map, slice_get};
ghost use Rattle.asn1_defs.specs.Links.{AreBelow, PartsBelow, IsInside};
ghost use Rattle.profile.specs.profile_module.inside.Same.{same_inner_at, same_parts, same_added, same_additions, same_type, is_bare_alike};
ghost use Rattle.message_defs.specs.profile_defs.Agreement.{definition_at, is_same_size};
ghost use Rattle.asn1_syntax.specs.types.Members.{additions_of};

use crate::profile_module::plain::{is_bare_alike, is_same_size};
use crate::profile_module::sets::is_same_inner;
use asn1_module::{Component, Definition, Extensible, Items, Module, Size, TypeId};
use asn1_tokens::is_text;

/// Two types that are no SEQUENCE, CHOICE or SEQUENCE OF are written alike.
fn is_inner_alike(profile: &Module, a: TypeId, module: &Module, b: TypeId) -> bool
    requires a { a.number < length profile.now.nodes }
    requires b { b.number < length module.now.nodes }
    ensures { result ≡ same_inner_at profile.now module.now a b }
{
    is_same_inner(profile, profile.definition(a), module, module.definition(b))
}

/// The same components or alternatives in the same order.
#[tactic(auto, unfolding(crate::specs::profile_module::inside::Same::same_parts))]
fn are_same_parts(profile: &Module, a: &[Component], module: &Module, b: &[Component]) -> bool
    requires a { AreBelow (length profile.now.nodes) a.now }
    requires b { AreBelow (length module.now.nodes) b.now }
    ensures { result ≡ same_parts profile.now module.now a.now b.now }
{
    match (a.split_first(), b.split_first()) {
        (None, None) => true,
        (Some((a, others_of_a)), Some((b, others_of_b))) => {
            is_text(b.name.as_slice(), a.name.as_slice())
                && a.optional == b.optional
                && is_inner_alike(profile, a.definition, module, b.definition)
                && are_same_parts(profile, others_of_a, module, others_of_b)
        }
        _ => false,
    }
}

/// The same additions in the same order, of which OPTIONAL doesn't matter.
#[tactic(auto, unfolding(crate::specs::profile_module::inside::Same::same_added))]
fn are_same_added(profile: &Module, a: &[Component], module: &Module, b: &[Component]) -> bool
    requires a { AreBelow (length profile.now.nodes) a.now }
    requires b { AreBelow (length module.now.nodes) b.now }
    ensures { result ≡ same_added profile.now module.now a.now b.now }
{
    match (a.split_first(), b.split_first()) {
        (None, None) => true,
        (Some((a, others_of_a)), Some((b, others_of_b))) => {
            is_text(b.name.as_slice(), a.name.as_slice())
                && is_inner_alike(profile, a.definition, module, b.definition)
                && are_same_added(profile, others_of_a, module, others_of_b)
        }
        _ => false,
    }
}

/// The same additions after `...`, which stands in both.
fn are_same_additions(
    profile: &Module,
    a: &Option<Items<Component>>,
    module: &Module,
    b: &Option<Items<Component>>,
) -> bool
    requires a { AreBelow (length profile.now.nodes) (additions_of a.now) }
    requires b { AreBelow (length module.now.nodes) (additions_of b.now) }
    ensures { result ≡ same_additions profile.now module.now a.now b.now }
{
    match (a, b) {
        (Some(a), Some(b)) => are_same_added(profile, a.as_slice(), module, b.as_slice()),
        _ => false,
    }
}

/// Two types of the modules are written alike.
#[tactic(auto, unfolding(crate::specs::profile_module::inside::Same::same_type))]
pub fn is_type_alike(profile: &Module, a: TypeId, module: &Module, b: TypeId) -> bool
    requires a { a.number < length profile.now.nodes }
    requires b { b.number < length module.now.nodes }
    ensures { result ≡ same_type profile.now module.now (definition_at profile.now a) (definition_at module.now b) }
{
    match (profile.definition(a), module.definition(b)) {
        (Definition::Sequence(a), Definition::Sequence(b)) => {
            are_same_parts(profile, a.root.as_slice(), module, b.root.as_slice())
                && are_same_additions(profile, &a.additions, module, &b.additions)
        }
        (Definition::Choice(a), Definition::Choice(b)) => {
            are_same_parts(profile, a.root.as_slice(), module, b.root.as_slice())
                && is_bare_alike(&a.additions, &b.additions)
        }
        (
            Definition::SequenceOf { size, element },
            Definition::SequenceOf {
                size: size_b,
                element: element_b,
            },
        ) => is_same_size(*size, *size_b) && is_inner_alike(profile, *element, module, *element_b),
        (a, b) => is_same_inner(profile, a, module, b),
    }
}
