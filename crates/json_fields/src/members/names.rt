//! Names among names.

ghost use Rattle.std.specs.Prelude.{◌≡◌, ◌++◌, ◌<◌, ◌+◌, length, IfSome};
ghost use Rattle.asn1_syntax.specs.types.Members.{additions_of};
ghost use Rattle.json_defs.specs.Members.{same_text, place_in, criticalities};

use asn1_syntax::types::Extensible;
use gnb_types::octets::Octets;

pub(crate) fn same_text(name: &[u8], other: &[u8]) -> bool
    ensures { result ≡ same_text name.now other.now }
{
    name == other
}

/// The place of a name among names.
pub fn place_in(names: &[Octets], name: &[u8]) -> Option<usize>
    ensures place { result ≡ place_in names.now name.now 0 }
    ensures inside { IfSome result (λ i. i < length names.now) }
{
    for (i, other) in names.iter().enumerate() {
        if same_text(other.as_slice(), name) {
            return Some(i);
        }
    }
    None
}

/// The place of a name among those of the root, then among the additions.
pub fn place_of(names: &Extensible<Octets>, name: &[u8]) -> Option<usize>
    ensures place { result ≡ place_in (names.now.root ++ additions_of names.now.additions) name.now 0 }
    ensures inside { IfSome result (λ i. i < length names.now.root + length (additions_of names.now.additions)) }
{
    if let Some(place) = place_in(names.root.as_slice(), name) {
        return Some(place);
    }
    let Some(additions) = &names.additions else {
        return None;
    };
    match place_in(additions.as_slice(), name) {
        Some(place) => Some(names.root.len() + place),
        None => None,
    }
}

/// The number of a criticality by its name.
pub fn criticality_of(name: &[u8]) -> Option<u8>
    ensures { result ≡ place_in criticalities name.now 0 }
{
    match name {
        b"reject" => Some(0),
        b"ignore" => Some(1),
        b"notify" => Some(2),
        _ => None,
    }
}
