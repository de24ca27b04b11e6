//! What the names in types refer to.

ghost use Rattle.std.specs.Prelude.{◌≡◌, option_map};
ghost use Rattle.asn1_defs.specs.Numbers.{number_in, all_numbers};
ghost use Rattle.asn1_defs.specs.Names.{kind_of_body, is_such, is_known, first_unknown};
ghost use Rattle.asn1_module.specs.Numbers.{body_at};

use asn1_defs::Kind;
use asn1_syntax::assignments::{Assignment, Body};
use asn1_syntax::types::{Definition, Node};

fn kind_of_body(body: &Body) -> Kind
    ensures { result ≡ kind_of_body body.now }
{
    match body {
        Body::Type(_) => Kind::Type,
        Body::IeSet(_) => Kind::IeSet,
        Body::ProcedureSet(_) => Kind::ProcedureSet,
    }
}

/// The assignment of this number is of this kind.
fn is_number_of(kind: Kind, number: Option<usize>, assignments: &[Assignment]) -> bool
    ensures { result ≡ is_such kind (option_map kind_of_body (body_at assignments.now number)) }
{
    let Some(number) = number else {
        return false;
    };
    match assignments.get(number) {
        None => false,
        Some(found) => kind_of_body(&found.body) as u8 == kind as u8,
    }
}

/// The name in a type is that of a type or set of the kind that stands there; `target` is the number of the assignment that it
/// refers to.
#[tactic(auto, unfolding(asn1_defs::specs::Names::is_known))]
fn is_known(definition: &Definition, target: Option<usize>, assignments: &[Assignment]) -> bool
    requires { target ≡ number_in assignments.now definition.now }
    ensures { result ≡ is_known assignments.now definition.now }
{
    match definition {
        Definition::Reference(_) => is_number_of(Kind::Type, target, assignments),
        Definition::IeContainer(_) => is_number_of(Kind::IeSet, target, assignments),
        Definition::Pdu(_) => is_number_of(Kind::ProcedureSet, target, assignments),
        _ => true,
    }
}

/// The place of the first name that is not known.
#[tactic(auto, unfolding(asn1_defs::specs::Names::first_unknown))]
pub fn first_unknown(
    assignments: &[Assignment],
    nodes: &[Node],
    targets: &[Option<usize>],
) -> Option<usize>
    requires { targets.now ≡ all_numbers assignments.now nodes.now }
    ensures { result ≡ first_unknown assignments.now nodes.now }
{
    for (number, node) in nodes.iter().enumerate() {
        if !is_known(&node.definition, targets[number], assignments) {
            return Some(node.place);
        }
    }
    None
}
