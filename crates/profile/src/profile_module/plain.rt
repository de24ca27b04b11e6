//! Types without another one inside: whether two are written alike.

ghost use Rattle.std.specs.Prelude.{◌≡◌, Some, length};
ghost use Rattle.message_defs.specs.profile_defs.Agreement.{is_same_size, are_names};
ghost use Rattle.profile.specs.profile_module.inside.Same.{is_bare_alike, same_plain, same_names};

use asn1_module::{Definition, Extensible, Items, Size};
use asn1_tokens::is_text;
use gnb_types::octets::Octets;

/// Sizes of the same numbers, with `...` at both or at none.
pub fn is_same_size(a: Option<Size>, b: Option<Size>) -> bool
    ensures { result ≡ is_same_size a b }
{
    match (a, b) {
        (None, None) => true,
        (Some(a), Some(b)) => { a.low == b.low && a.high == b.high && a.extensible == b.extensible }
        _ => false,
    }
}

/// The same names in the same order.
fn are_same_names(a: &[Octets], b: &[Octets]) -> bool
    ensures { result ≡ are_names a.now b.now }
{
    match (a.split_first(), b.split_first()) {
        (None, None) => true,
        (Some((a, others_of_a)), Some((b, others_of_b))) => {
            is_text(b.as_slice(), a.as_slice()) && are_same_names(others_of_a, others_of_b)
        }
        _ => false,
    }
}

/// `...` with nothing after it in both, or in none.
pub fn is_bare_alike<T>(a: &Option<Items<T>>, b: &Option<Items<T>>) -> bool
    ensures { result ≡ is_bare_alike a.now b.now }
{
    match (a, b) {
        (None, None) => true,
        (Some(a), Some(b)) => a.len() == 0 && b.len() == 0,
        _ => false,
    }
}

/// Enumerations of the same names.
fn are_same_enumerations(a: &Extensible<Octets>, b: &Extensible<Octets>) -> bool
    ensures { result ≡ same_names a.now b.now }
{
    are_same_names(a.root.as_slice(), b.root.as_slice())
        && is_bare_alike(&a.additions, &b.additions)
}

/// Two types without another one inside are written alike; false of others.
#[tactic(auto, unfolding(crate::specs::profile_module::inside::Same::same_plain))]
pub fn is_same_plain(a: &Definition, b: &Definition) -> bool
    ensures { result ≡ same_plain (Some a.now) (Some b.now) }
{
    match (a, b) {
        (Definition::Boolean, Definition::Boolean) => true,
        (
            Definition::Integer {
                low,
                high,
                extensible,
            },
            Definition::Integer {
                low: low_b,
                high: high_b,
                extensible: extensible_b,
            },
        ) => low == low_b && high == high_b && extensible == extensible_b,
        (Definition::Enumerated(a), Definition::Enumerated(b)) => are_same_enumerations(a, b),
        (Definition::BitString(a), Definition::BitString(b)) => is_same_size(*a, *b),
        (Definition::OctetString(a), Definition::OctetString(b)) => is_same_size(*a, *b),
        (Definition::PrintableString(a), Definition::PrintableString(b)) => is_same_size(*a, *b),
        (Definition::Reference(a), Definition::Reference(b)) => is_text(b.as_slice(), a.as_slice()),
        _ => false,
    }
}
