//! Which types and assignments lead to which.

ghost use Rattle.std.specs.Prelude.{◌≡◌, ◌+◌, ◌-◌, ◌^◌, ◌<◌, ◌++◌, length, OnOk, IfOk, IfSome};
ghost use Rattle.asn1_defs.specs.Numbers.{all_numbers, numbers_in};
ghost use Rattle.asn1_defs.specs.Graph.{member_edges, all_member_edges, numbered_edges, definition_edges, nodes_edges, range_edges, parts_edges, edges_of, vertex_count};

use asn1_defs::Edge;
use asn1_syntax::assignments::{Assignment, Syntax};
use asn1_syntax::types::{Component, Definition, Extensible, Items, Node};
use gnb_types::octets::Memory;
use std::alloc::Global;

/// How many vertices a module has.
pub fn vertex_count(syntax: &Syntax) -> usize
    ensures { result ≡ vertex_count syntax.now }
{
    syntax.nodes.as_slice().len() + syntax.assignments.as_slice().len()
}

/// Adds the steps from a type to those of its members.
#[tactic(auto, unfolding(asn1_defs::specs::Graph::member_edges))]
fn push_members(edges: &mut Items<Edge>, from: usize, members: &[Component]) -> Result<(), Memory>
    ensures { OnOk result (edges.new ≡ edges.old ++ member_edges from members.now) }
{
    for member in members {
        let to = member.definition.number;
        edges.push(Edge { from, to })?;
    }
    Ok(())
}

/// Adds the steps from a type to those of the members of its root and of its additions.
#[tactic(auto, unfolding(asn1_defs::specs::Graph::member_edges))]
fn push_all_members(
    edges: &mut Items<Edge>,
    from: usize,
    members: &Extensible<Component>,
) -> Result<(), Memory>
    ensures { OnOk result (edges.new ≡ edges.old ++ all_member_edges from members.now) }
{
    push_members(edges, from, members.root.as_slice())?;
    match &members.additions {
        None => Ok(()),
        Some(added) => push_members(edges, from, added.as_slice()),
    }
}

/// Adds the step from a type to the assignment that its name refers to.
fn push_named(
    edges: &mut Items<Edge>,
    base: usize,
    from: usize,
    target: Option<usize>,
) -> Result<(), Memory>
    requires { IfSome target (λ number. base + number < 2 ^ 64) }
    ensures { OnOk result (edges.new ≡ edges.old ++ numbered_edges base from target) }
{
    match target {
        None => Ok(()),
        Some(number) => edges.push(Edge {
            from,
            to: base + number,
        }),
    }
}

/// Adds the steps from a type; `base` is the number of types, and `target` that of the assignment which its name refers to.
fn push_node(
    edges: &mut Items<Edge>,
    base: usize,
    from: usize,
    definition: &Definition,
    target: Option<usize>,
) -> Result<(), Memory>
    requires { IfSome target (λ number. base + number < 2 ^ 64) }
    ensures { OnOk result (edges.new ≡ edges.old ++ definition_edges base target from definition.now) }
{
    match definition {
        Definition::Sequence(members) | Definition::Choice(members) => {
            push_all_members(edges, from, members)
        }
        Definition::SequenceOf { element, .. } => edges.push(Edge {
            from,
            to: element.number,
        }),
        Definition::Reference(_) | Definition::IeContainer(_) | Definition::Pdu(_) => {
            push_named(edges, base, from, target)
        }
        _ => Ok(()),
    }
}

/// Adds the steps from each type.
#[tactic(auto, unfolding(asn1_defs::specs::Graph::nodes_edges))]
fn push_nodes(
    edges: &mut Items<Edge>,
    assignments: &[Assignment],
    nodes: &[Node],
    targets: &[Option<usize>],
) -> Result<(), Memory>
    requires fits { length nodes.now + length assignments.now < 2 ^ 64 }
    requires targets { targets.now ≡ all_numbers assignments.now nodes.now }
    ensures { OnOk result (edges.new ≡ edges.old ++ nodes_edges (length nodes.now) assignments.now 0 nodes.now) }
{
    for (from, node) in nodes.iter().enumerate() {
        push_node(edges, nodes.len(), from, &node.definition, targets[from])?;
    }
    Ok(())
}

/// Adds the steps from an assignment to each of so many types.
fn push_range(edges: &mut Items<Edge>, from: usize, first: usize, end: usize) -> Result<(), Memory>
    ensures { OnOk result (edges.new ≡ edges.old ++ range_edges from first (end - first)) }
{
    for to in first..end {
        edges.push(Edge { from, to })?;
    }
    Ok(())
}

/// Adds the steps from each assignment; the vertex of the first one is `base`.
#[tactic(auto, unfolding(asn1_defs::specs::Graph::parts_edges))]
fn push_parts(
    edges: &mut Items<Edge>,
    base: usize,
    assignments: &[Assignment],
) -> Result<(), Memory>
    requires { base + length assignments.now < 2 ^ 64 }
    ensures { OnOk result (edges.new ≡ edges.old ++ parts_edges base 0 assignments.now) }
{
    let mut first = 0;
    for (number, assignment) in assignments.iter().enumerate() {
        push_range(edges, base + number, first, assignment.end)?;
        first = assignment.end;
    }
    Ok(())
}

/// The steps of a module, by the numbers of the assignments that its names refer to.
#[tactic(auto, unfolding(asn1_defs::specs::Graph::edges_of))]
pub fn edges_of(
    alloc: Global,
    syntax: &Syntax,
    targets: &[Option<usize>],
) -> Result<Items<Edge>, Memory>
    requires { targets.now ≡ numbers_in syntax.now }
    ensures { IfOk result (λ edges. edges ≡ edges_of syntax.now) }
{
    let nodes = syntax.nodes.as_slice();
    let assignments = syntax.assignments.as_slice();
    let mut edges = Items::new(alloc);
    push_nodes(&mut edges, assignments, nodes, targets)?;
    push_parts(&mut edges, nodes.len(), assignments)?;
    Ok(edges)
}
