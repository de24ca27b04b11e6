//! Paths through a module's types and assignments.

ghost use Rattle.std.specs.Prelude.{◌≡◌, ◌+◌, ◌-◌, ◌<◌, ◌≤◌, ◌↔◌, IfOk, OnOk, IsTrue, length, slice_index, false, replicate};
ghost use Rattle.asn1_module.specs.graph.Walks.{raised, mark_step, depth_step, round_of, AreAmong, IsReach, IsDepth, MarksLoops};
ghost use Rattle.asn1_defs.specs.Paths.{IsFirst, Leads};
ghost use Rattle.asn1_module.specs.graph.Tables.{MarksWell, Falls, MarksLevel, level_step};

use crate::graph::search::{entry, searched};
use crate::graph::steps::Steps;
use asn1_defs::Edge;
use gnb_types::octets::Memory;
use std::alloc::Global;

const DEPTH_CAP: u8 = 61;

/// The value at a place of a table, 0 outside it.
pub fn value_at(table: &[u8], at: usize) -> u8
    ensures { result ≡ slice_index table.now at }
{
    if at < table.len() { table[at] } else { 0 }
}

/// Puts a greater value at a place, and answers whether the table changed.
fn raise(table: &mut [u8], at: usize, value: u8) -> bool
    ensures { (result, table.new) ≡ raised table.old at value }
{
    if at < table.len() && table[at] < value {
        table[at] = value;
        return true;
    }
    false
}

#[tactic(auto, unfolding(crate::specs::graph::Walks::mark_step))]
fn mark_step(table: &mut [u8], start: usize, edge: Edge) -> bool
    ensures { (result, table.new) ≡ mark_step start table.old edge }
{
    if edge.from == start || value_at(table, edge.from) > 0 {
        return raise(table, edge.to, 1);
    }
    false
}

#[tactic(auto, unfolding(crate::specs::graph::Walks::depth_step))]
fn depth_step(table: &mut [u8], weights: &[u8], edge: Edge) -> bool
    ensures { (result, table.new) ≡ depth_step weights.now table.old edge }
{
    if edge.to >= table.len() {
        return false;
    }
    let depth = u16::from(value_at(weights, edge.from)) + u16::from(table[edge.to]);
    raise(table, edge.from, depth.min(u16::from(DEPTH_CAP)) as u8)
}

#[tactic(auto, unfolding(crate::specs::graph::Walks::round_of))]
fn mark_round(table: &mut [u8], start: usize, edges: &[Edge]) -> bool
    ensures { (result, table.new) ≡ round_of (mark_step start) false table.old edges.now }
{
    let mut changed = false;
    for edge in edges {
        let raised = mark_step(table, start, *edge);
        changed = changed || raised;
    }
    changed
}

#[tactic(auto, unfolding(crate::specs::graph::Walks::round_of))]
fn depth_round(table: &mut [u8], weights: &[u8], edges: &[Edge]) -> bool
    ensures { (result, table.new) ≡ round_of (depth_step weights.now) false table.old edges.now }
{
    let mut changed = false;
    for edge in edges {
        let raised = depth_step(table, weights, *edge);
        changed = changed || raised;
    }
    changed
}

/// Marks where the steps from a vertex lead, and adds those that had no mark to the list.
fn mark_next(
    table: &mut [u8],
    start: usize,
    steps: &Steps,
    vertex: usize,
    found: &mut Vec<usize>,
) -> Result<(), Memory>
    requires inner { start < length table.old }
    requires marks { MarksWell (length table.old) steps.now.edges.now start table.old }
    ensures { OnOk result (MarksWell (length table.old) steps.now.edges.now start table.new) }
{
    for edge in steps.of(vertex) {
        if mark_step(table, start, *edge) {
            found.push(edge.to)?;
        }
    }
    Ok(())
}

/// Marks what a vertex leads to, one vertex after the other, in a table without marks.
fn spread(alloc: Global, table: &mut [u8], start: usize, steps: &Steps) -> Result<(), Memory>
    requires inner { start < length table.old }
    requires unmarked { table.old ≡ replicate (length table.old) 0 }
    ensures { OnOk result (MarksWell (length table.old) steps.now.edges.now start table.new) }
{
    let mut found = Vec::new(alloc);
    found.push(start)?;
    // Each vertex is found once, and the first one maybe again.
    for _ in 0..=table.len() {
        let Some(vertex) = found.pop() else {
            return Ok(());
        };
        mark_next(table, start, steps, vertex, &mut found)?;
    }
    Ok(())
}

/// Marks all that a vertex leads to, in a table without marks. The rounds that follow the search find nothing left to mark.
fn mark_all(alloc: Global, table: &mut [u8], start: usize, steps: &Steps) -> Result<(), Memory>
    requires inner { start < length table.old }
    requires unmarked { table.old ≡ replicate (length table.old) 0 }
    ensures { OnOk result (IsReach (length table.old) steps.now.edges.now start table.new) }
{
    spread(alloc, table, start, steps)?;
    while mark_round(table, start, steps.edges) {}
    Ok(())
}

/// Which vertices one leads to, of so many.
fn reached(alloc: Global, steps: &Steps, count: usize, start: usize) -> Result<Vec<u8>, Memory>
    requires { start < count }
    ensures { IfOk result (λ table. IsReach count steps.now.edges.now start table.items) }
{
    let mut table = Vec::from_elem(alloc, 0, count)?;
    mark_all(alloc, &mut table, start, steps)?;
    Ok(table)
}

/// Whether no step leads to a greater number.
fn falls(ranks: &[usize], edges: &[Edge]) -> bool
    ensures { IsTrue result → Falls ranks.now edges.now }
{
    for edge in edges {
        if entry(ranks, edge.to) > entry(ranks, edge.from) {
            return false;
        }
    }
    true
}

/// Marks where a step begins that leads to an equal number.
fn level_step(table: &mut [u8], ranks: &[usize], edge: Edge)
    ensures { table.new ≡ level_step ranks.now table.old edge }
{
    if entry(ranks, edge.to) == entry(ranks, edge.from) {
        raise(table, edge.from, 1);
    }
}

/// Marks where each step begins that leads to an equal number.
fn mark_level(table: &mut [u8], ranks: &[usize], edges: &[Edge])
    ensures { MarksLevel ranks.now edges.now table.new }
{
    for edge in edges {
        level_step(table, ranks, *edge);
    }
}

/// Marks, of so many vertices, each that leads to itself, by the ranks that a search found: none leads to a greater one, so
/// all of a loop have an equal one. Were they wrong, all would be marked.
fn looping(alloc: Global, edges: &[Edge], count: usize, ranks: &[usize]) -> Result<Vec<u8>, Memory>
    ensures { IfOk result (λ table. MarksLoops count edges.now table.items) }
{
    if !falls(ranks, edges) {
        return Ok(Vec::from_elem(alloc, 1, count)?);
    }
    let mut table = Vec::from_elem(alloc, 0, count)?;
    mark_level(&mut table, ranks, edges);
    Ok(table)
}

/// Whether a vertex leads to itself. Those without a mark don't, so only marked ones are searched from.
fn is_looping(
    alloc: Global,
    steps: &Steps,
    count: usize,
    marks: &[u8],
    vertex: usize,
) -> Result<bool, Memory>
    requires inner { vertex < count }
    requires marks { MarksLoops count steps.now.edges.now marks.now }
    ensures { IfOk result (λ found. IsTrue found ↔ Leads count steps.now.edges.now vertex vertex) }
{
    if value_at(marks, vertex) == 0 {
        return Ok(false);
    }
    let table = reached(alloc, steps, count, vertex)?;
    Ok(value_at(&table, vertex) > 0)
}

/// The first of the vertices from this one on that leads to itself, counted from there; there are so many vertices.
pub fn first_looping(
    alloc: Global,
    edges: &[Edge],
    count: usize,
    base: usize,
) -> Result<Option<usize>, Memory>
    ensures { IfOk result (λ found. IsFirst (λ k. Leads count edges.now (base + k) (base + k)) (count - base) found) }
{
    let found = searched(alloc, edges, count)?;
    let marks = looping(alloc, edges, count, &found.ranks)?;
    let steps = Steps::new(alloc, edges, count)?;
    for vertex in base..count {
        if is_looping(alloc, &steps, count, &marks, vertex)? {
            return Ok(Some(vertex - base));
        }
    }
    Ok(None)
}

/// The steps from these vertices, in their order.
fn ordered(alloc: Global, steps: &Steps, order: &[usize]) -> Result<Vec<Edge>, Memory>
    ensures { IfOk result (λ found. AreAmong found.items steps.now.edges.now) }
{
    let mut found = Vec::new(alloc);
    for vertex in order {
        found.extend_from_slice(steps.of(*vertex))?;
    }
    Ok(found)
}

/// Deepens a table that has each vertex's own weight: first by some of the steps, and then by all until nothing changes.
fn deepen_all(table: &mut [u8], weights: &[u8], some: &[Edge], edges: &[Edge])
    requires own { table.old ≡ weights.now }
    requires among { AreAmong some.now edges.now }
    ensures { IsDepth (length weights.now) edges.now weights.now table.new }
{
    depth_round(table, weights, some);
    while depth_round(table, weights, edges) {}
}

/// How deep types stand one inside another, up to the cap. By steps in the order that a search finds one round is enough, where
/// there are no loops.
pub fn depths(alloc: Global, edges: &[Edge], weights: &[u8]) -> Result<Vec<u8>, Memory>
    ensures { IfOk result (λ table. IsDepth (length weights.now) edges.now weights.now table.items) }
{
    let count = weights.len();
    let steps = Steps::new(alloc, edges, count)?;
    let found = searched(alloc, edges, count)?;
    let some = ordered(alloc, &steps, &found.order)?;
    let mut table = Vec::from_slice(alloc, weights)?;
    deepen_all(&mut table, weights, &some, edges);
    Ok(table)
}
