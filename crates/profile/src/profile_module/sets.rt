//! Sets of information elements and of procedures: whether two modules write them alike.

ghost use Rattle.std.specs.Prelude.{◌≡◌, ◌<◌, length, Some, option_map, IfSome, slice_get};
ghost use Rattle.asn1_defs.specs.Links.{IesBelow, ProceduresBelow, OptionBelow};
ghost use Rattle.message_defs.specs.profile_defs.Agreement.{is_reject, is_mandatory};
ghost use Rattle.profile.specs.profile_module.inside.Same.{same_plain_at, same_elements, same_outcome, same_procedures, same_element_sets, same_procedure_sets, same_inner};
ghost use Rattle.asn1_defs.specs.Targets.{ie_rows, procedure_rows};

use crate::profile_module::plain::is_same_plain;
use asn1_module::{Criticality, Definition, IeRow, Module, Presence, ProcedureRow, TypeId};

fn is_reject(criticality: Criticality) -> bool
    ensures { result ≡ is_reject criticality }
{
    matches!(criticality, Criticality::Reject)
}

fn is_mandatory(presence: Presence) -> bool
    ensures { result ≡ is_mandatory presence }
{
    matches!(presence, Presence::Mandatory)
}

/// Two types without another one inside are written alike.
fn is_plain_alike(profile: &Module, a: TypeId, module: &Module, b: TypeId) -> bool
    requires a { a.number < length profile.now.nodes }
    requires b { b.number < length module.now.nodes }
    ensures { result ≡ same_plain_at profile.now module.now a b }
{
    is_same_plain(profile.definition(a), module.definition(b))
}

/// The same information elements in the same order.
#[tactic(auto, unfolding(crate::specs::profile_module::inside::Same::same_elements))]
fn are_same_elements(profile: &Module, a: &[IeRow], module: &Module, b: &[IeRow]) -> bool
    requires a { IesBelow (length profile.now.nodes) a.now }
    requires b { IesBelow (length module.now.nodes) b.now }
    ensures { result ≡ same_elements profile.now module.now a.now b.now }
{
    match (a.split_first(), b.split_first()) {
        (None, None) => true,
        (Some((a, others_of_a)), Some((b, others_of_b))) => {
            b.id == a.id
                && is_reject(b.criticality)
                && is_plain_alike(profile, a.definition, module, b.definition)
                && is_mandatory(a.presence) == is_mandatory(b.presence)
                && are_same_elements(profile, others_of_a, module, others_of_b)
        }
        _ => false,
    }
}

/// The same outcome of a procedure, or none.
fn is_same_outcome(profile: &Module, a: Option<TypeId>, module: &Module, b: Option<TypeId>) -> bool
    requires a { OptionBelow (length profile.now.nodes) a }
    requires b { OptionBelow (length module.now.nodes) b }
    ensures { result ≡ same_outcome profile.now module.now a b }
{
    match (a, b) {
        (None, None) => true,
        (Some(a), Some(b)) => is_plain_alike(profile, a, module, b),
        _ => false,
    }
}

/// The same procedures in the same order.
#[tactic(auto, unfolding(crate::specs::profile_module::inside::Same::same_procedures))]
fn are_same_procedures(
    profile: &Module,
    a: &[ProcedureRow],
    module: &Module,
    b: &[ProcedureRow],
) -> bool
    requires a { ProceduresBelow (length profile.now.nodes) a.now }
    requires b { ProceduresBelow (length module.now.nodes) b.now }
    ensures { result ≡ same_procedures profile.now module.now a.now b.now }
{
    match (a.split_first(), b.split_first()) {
        (None, None) => true,
        (Some((a, others_of_a)), Some((b, others_of_b))) => {
            b.code == a.code
                && is_reject(b.criticality)
                && is_plain_alike(profile, a.initiating, module, b.initiating)
                && is_same_outcome(profile, a.successful, module, b.successful)
                && is_same_outcome(profile, a.unsuccessful, module, b.unsuccessful)
                && are_same_procedures(profile, others_of_a, module, others_of_b)
        }
        _ => false,
    }
}

/// Containers of the same information elements.
fn are_same_containers(profile: &Module, a: &[u8], module: &Module, b: &[u8]) -> bool
    ensures { result ≡ same_element_sets profile.now module.now (ie_rows a.now profile.now.assignments) (ie_rows b.now module.now.assignments) }
{
    match (profile.ie_rows(a), module.ie_rows(b)) {
        (Some(a), Some(b)) => are_same_elements(profile, a, module, b),
        _ => false,
    }
}

/// PDUs of the same procedures.
fn are_same_pdus(profile: &Module, a: &[u8], module: &Module, b: &[u8]) -> bool
    ensures { result ≡ same_procedure_sets profile.now module.now (procedure_rows a.now profile.now.assignments) (procedure_rows b.now module.now.assignments) }
{
    match (profile.procedure_rows(a), module.procedure_rows(b)) {
        (Some(a), Some(b)) => are_same_procedures(profile, a, module, b),
        _ => false,
    }
}

/// Two types that are no SEQUENCE, CHOICE or SEQUENCE OF are written alike.
#[tactic(auto, unfolding(crate::specs::profile_module::inside::Same::same_inner))]
pub fn is_same_inner(profile: &Module, a: &Definition, module: &Module, b: &Definition) -> bool
    ensures { result ≡ same_inner profile.now module.now (Some a.now) (Some b.now) }
{
    match (a, b) {
        (Definition::IeContainer(a), Definition::IeContainer(b)) => {
            are_same_containers(profile, a.as_slice(), module, b.as_slice())
        }
        (Definition::Pdu(a), Definition::Pdu(b)) => {
            are_same_pdus(profile, a.as_slice(), module, b.as_slice())
        }
        _ => is_same_plain(a, b),
    }
}
