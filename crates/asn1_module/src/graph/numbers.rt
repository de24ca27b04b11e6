//! The numbers of the assignments that the names in types refer to.

ghost use Rattle.std.specs.Prelude.{◌≡◌, IfOk};
ghost use Rattle.asn1_syntax.specs.assignments.Index.{numbered};
ghost use Rattle.asn1_defs.specs.Numbers.{name_in, number_by, numbers_in as numbers_of_syntax};

use asn1_syntax::assignments::{NameIndex, Syntax, index_of};
use asn1_syntax::types::Definition;
use gnb_types::octets::Memory;
use std::alloc::Global;

/// The number of the assignment that the name in a type refers to.
fn number_in(names: &NameIndex, definition: &Definition) -> Option<usize>
    ensures { result ≡ number_by (numbered names.now) (name_in definition.now) }
{
    match definition {
        Definition::Reference(name) | Definition::IeContainer(name) | Definition::Pdu(name) => {
            names.number_of(name.as_slice())
        }
        _ => None,
    }
}

/// For each type of a module the number of the assignment that its name refers to.
#[tactic(auto, unfolding(asn1_defs::specs::Numbers::all_numbers))]
pub fn numbers_in(alloc: Global, syntax: &Syntax) -> Result<Vec<Option<usize>>, Memory>
    ensures { IfOk result (λ numbers. numbers.items ≡ numbers_of_syntax syntax.now) }
{
    let names = index_of(alloc, syntax.assignments.as_slice())?;
    let mut numbers = Vec::new(alloc);
    for node in syntax.nodes.as_slice() {
        numbers.push(number_in(&names, &node.definition))?;
    }
    Ok(numbers)
}
