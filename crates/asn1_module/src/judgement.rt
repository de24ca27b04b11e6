//! What is wrong with a module whose text is in the grammar.

ghost use Rattle.std.specs.Prelude.{◌≡◌, ◌<◌, IfOk, length, None};
ghost use Rattle.asn1_defs.specs.Names.{first_unknown};
ghost use Rattle.asn1_defs.specs.Numbers.{numbers_in};
ghost use Rattle.asn1_defs.specs.Graph.{vertex_count, edges_of};
ghost use Rattle.asn1_module.specs.graph.Walks.{IsDepth};
ghost use Rattle.asn1_defs.specs.Judgement.{weight_of, node_weights, weights_of, IsFirstRecursive, IsFirstDeep, Judged, IsAt};

use crate::graph::{depths, edges_of, first_looping, value_at, vertex_count};
use crate::names::first_unknown;
use asn1_defs::Edge;
use asn1_syntax::assignments::Syntax;
use asn1_syntax::types::{Definition, Fault, ModuleReason, Node};
use gnb_types::octets::Memory;
use std::alloc::Global;

/// As deep types may stand one inside another.
const DEPTH: u8 = 60;

/// The levels that a type adds to those inside it.
fn weight_of(definition: &Definition) -> u8
    ensures { result ≡ weight_of definition.now }
{
    match definition {
        Definition::Sequence(_)
        | Definition::Choice(_)
        | Definition::SequenceOf { .. }
        | Definition::IeContainer(_)
        | Definition::Pdu(_) => 1,
        _ => 0,
    }
}

/// The levels that types add.
#[tactic(auto, unfolding(asn1_defs::specs::Judgement::node_weights))]
fn node_weights(alloc: Global, nodes: &[Node]) -> Result<Vec<u8>, Memory>
    ensures { IfOk result (λ weights. weights.items ≡ node_weights nodes.now) }
{
    let mut weights = Vec::new(alloc);
    for node in nodes {
        weights.push(weight_of(&node.definition))?;
    }
    Ok(weights)
}

/// The levels that types and assignments add.
fn weights_of(alloc: Global, syntax: &Syntax) -> Result<Vec<u8>, Memory>
    ensures { IfOk result (λ weights. weights.items ≡ weights_of syntax.now) }
{
    let mut weights = node_weights(alloc, syntax.nodes.as_slice())?;
    let none = Vec::from_elem(alloc, 0, syntax.assignments.len())?;
    weights.extend_from_slice(&none)?;
    Ok(weights)
}

/// The first assignment that reaches itself.
fn first_recursive(alloc: Global, syntax: &Syntax, edges: &[Edge]) -> Result<Option<usize>, Memory>
    requires { edges.now ≡ edges_of syntax.now }
    ensures { IfOk result (λ found. IsFirstRecursive syntax.now found) }
{
    first_looping(
        alloc,
        edges,
        vertex_count(syntax),
        syntax.nodes.as_slice().len(),
    )
}

/// How deep types stand one inside another, for each type and assignment.
fn depths_of(alloc: Global, syntax: &Syntax, edges: &[Edge]) -> Result<Vec<u8>, Memory>
    requires { edges.now ≡ edges_of syntax.now }
    ensures { IfOk result (λ table. IsDepth (vertex_count syntax.now) (edges_of syntax.now) (weights_of syntax.now) table.items) }
{
    let weights = weights_of(alloc, syntax)?;
    depths(alloc, edges, &weights)
}

/// The first assignment that nests too deep.
fn first_deep(syntax: &Syntax, table: &[u8]) -> Option<usize>
    requires { IsDepth (vertex_count syntax.now) (edges_of syntax.now) (weights_of syntax.now) table.now }
    ensures { IsFirstDeep syntax.now result }
{
    let base = syntax.nodes.as_slice().len();
    for number in 0..syntax.assignments.as_slice().len() {
        if value_at(table, base + number) > DEPTH {
            return Some(number);
        }
    }
    None
}

/// A fault at the name of an assignment.
fn fault_at(syntax: &Syntax, number: usize, reason: ModuleReason) -> Fault
    requires { number < length syntax.now.assignments }
    ensures { IsAt syntax.now number reason result }
{
    let place = syntax.assignments.as_slice()[number].place;
    Fault { place, reason }
}

/// What is wrong with a module in which no assignment reaches itself, if something is.
fn judge_finite(alloc: Global, syntax: &Syntax, edges: &[Edge]) -> Result<Option<Fault>, Memory>
    requires edges { edges.now ≡ edges_of syntax.now }
    requires known { first_unknown syntax.now.assignments syntax.now.nodes ≡ None }
    requires finite { IsFirstRecursive syntax.now None }
    ensures { IfOk result (λ found. Judged syntax.now found) }
{
    let table = depths_of(alloc, syntax, edges)?;
    match first_deep(syntax, &table) {
        Some(number) => Ok(Some(fault_at(syntax, number, ModuleReason::Deep))),
        None => Ok(None),
    }
}

/// What is wrong with a module whose names are known, if something is.
fn judge_known(
    alloc: Global,
    syntax: &Syntax,
    targets: &[Option<usize>],
) -> Result<Option<Fault>, Memory>
    requires targets { targets.now ≡ numbers_in syntax.now }
    requires known { first_unknown syntax.now.assignments syntax.now.nodes ≡ None }
    ensures { IfOk result (λ found. Judged syntax.now found) }
{
    let edges = edges_of(alloc, syntax, targets)?;
    match first_recursive(alloc, syntax, edges.as_slice())? {
        Some(number) => Ok(Some(fault_at(syntax, number, ModuleReason::Recursive))),
        None => judge_finite(alloc, syntax, edges.as_slice()),
    }
}

/// What is wrong with a module, if something is, by the numbers of the assignments that its names refer to.
pub fn judge(
    alloc: Global,
    syntax: &Syntax,
    targets: &[Option<usize>],
) -> Result<Option<Fault>, Memory>
    requires { targets.now ≡ numbers_in syntax.now }
    ensures { IfOk result (λ found. Judged syntax.now found) }
{
    match first_unknown(
        syntax.assignments.as_slice(),
        syntax.nodes.as_slice(),
        targets,
    ) {
        Some(place) => Ok(Some(Fault {
            place,
            reason: ModuleReason::Unknown,
        })),
        None => judge_known(alloc, syntax, targets),
    }
}
