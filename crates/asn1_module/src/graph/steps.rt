//! The steps from each vertex.

ghost use Rattle.std.specs.Prelude.{◌≡◌, IfOk};
ghost use Rattle.asn1_module.specs.graph.Walks.{AreAmong};

use asn1_defs::Edge;
use gnb_types::octets::Memory;
use std::alloc::Global;

/// The steps of a graph, which stand in the order of the vertices that they begin at, and where those of each begin.
#[derive(Drop)]
pub struct Steps<'a> {
    pub edges: &'a [Edge],
    begins: Vec<usize>,
}

/// Adds where the steps of the vertices up to this one begin.
fn push_begins(begins: &mut Vec<usize>, vertex: usize, begin: usize) -> Result<(), Memory> {
    for _ in begins.len()..=vertex {
        begins.push(begin)?;
    }
    Ok(())
}

impl<'a> Steps<'a> {
    /// The steps of a graph of so many vertices.
    pub fn new(alloc: Global, edges: &'a [Edge], count: usize) -> Result<Steps<'a>, Memory>
        ensures { IfOk result (λ steps. steps.edges.now ≡ edges.now) }
    {
        let mut begins = Vec::new(alloc);
        for (begin, edge) in edges.iter().enumerate() {
            push_begins(&mut begins, edge.from.min(count), begin)?;
        }
        Ok(Steps { edges, begins })
    }

    /// Where the steps of this vertex begin.
    fn begin(&self, vertex: usize) -> usize {
        self.begins.get(vertex).copied().unwrap_or(self.edges.len())
    }

    /// The steps from a vertex.
    pub fn of(&self, vertex: usize) -> &'a [Edge]
        ensures { AreAmong result.now self.now.edges.now }
    {
        let end = self.begin(vertex.saturating_add(1)).min(self.edges.len());
        let begin = self.begin(vertex).min(end);
        &self.edges[begin..end]
    }
}
