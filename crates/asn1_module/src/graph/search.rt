//! One search through a graph, which finds its loops: in time that grows with the number of its vertices and steps.
//!
//! What it finds is a hint, by which the walks of `paths` need no further rounds: what they conclude they check, and
//! nothing here is promised.

ghost use Rattle.std.specs.Prelude.{◌≡◌, slice_index};

use crate::graph::steps::Steps;
use asn1_defs::Edge;
use gnb_types::octets::Memory;
use std::alloc::Global;

/// What a search finds.
#[derive(Drop)]
pub struct Found {
    /// For each vertex a number: vertices of a loop have one number, and no step leads to a greater one.
    pub ranks: Vec<usize>,
    /// The vertices, each after those that it leads to, but for loops.
    pub order: Vec<usize>,
}

/// Open vertices that lead to one another: the place of the first, and how many targets were to be followed before it.
#[derive(Clone, Copy)]
struct Run {
    first: usize,
    targets: usize,
}

/// A search. Vertices are open from when they are found until all that they lead to is done; the open ones stand in runs, each
/// of which leads to the next one. A step back to an open vertex joins all runs from that one's on.
#[derive(Drop)]
struct Search<'a> {
    steps: Steps<'a>,
    /// For each vertex that was found its place among the open ones, counted from 1.
    places: Vec<usize>,
    ranks: Vec<usize>,
    order: Vec<usize>,
    open: Vec<usize>,
    runs: Vec<Run>,
    /// Where the steps of the open vertices lead that weren't followed yet.
    targets: Vec<usize>,
}

/// The entry of a vertex, 0 outside a table.
pub fn entry(table: &[usize], vertex: usize) -> usize
    ensures { result ≡ slice_index table.now vertex }
{
    table.get(vertex).copied().unwrap_or(0)
}

fn put(table: &mut [usize], vertex: usize, entry: usize) {
    if vertex < table.len() {
        table[vertex] = entry;
    }
}

fn push_targets(targets: &mut Vec<usize>, edges: &[Edge]) -> Result<(), Memory> {
    for edge in edges {
        targets.push(edge.to)?;
    }
    Ok(())
}

impl<'a> Search<'a> {
    fn new(alloc: Global, edges: &'a [Edge], count: usize) -> Result<Search<'a>, Memory> {
        Ok(Search {
            steps: Steps::new(alloc, edges, count)?,
            places: Vec::from_elem(alloc, 0, count)?,
            ranks: Vec::from_elem(alloc, 0, count)?,
            order: Vec::new(alloc),
            open: Vec::new(alloc),
            runs: Vec::new(alloc),
            targets: Vec::new(alloc),
        })
    }

    /// Opens a vertex, in a run of its own.
    fn open(&mut self, vertex: usize) -> Result<(), Memory> {
        let first = self.open.len();
        let targets = self.targets.len();
        self.runs.push(Run { first, targets })?;
        self.open.push(vertex)?;
        put(&mut self.places, vertex, first + 1);
        push_targets(&mut self.targets, self.steps.of(vertex))
    }

    /// Joins the runs that begin after an open vertex with its own.
    fn join(&mut self, place: usize) {
        for _ in 0..self.runs.len() {
            let Some(run) = self.runs.last().copied() else {
                return;
            };
            if run.first < place {
                return;
            }
            drop(self.runs.pop());
        }
    }

    /// Follows a step from the last run.
    fn follow(&mut self, target: usize) -> Result<(), Memory> {
        let place = entry(&self.places, target);
        if place == 0 {
            return self.open(target);
        }
        if entry(&self.ranks, target) == 0 {
            self.join(place);
        }
        Ok(())
    }

    /// Numbers the vertices of the last run.
    fn close(&mut self, run: Run) -> Result<(), Memory> {
        let rank = self.order.len() + 1;
        for _ in run.first..self.open.len() {
            let Some(vertex) = self.open.pop() else {
                return Ok(());
            };
            put(&mut self.ranks, vertex, rank);
            self.order.push(vertex)?;
        }
        Ok(())
    }

    /// Follows one more step, or closes a run, and answers whether one was open.
    fn turn(&mut self) -> Result<bool, Memory> {
        let Some(run) = self.runs.last().copied() else {
            return Ok(false);
        };
        if self.targets.len() > run.targets {
            if let Some(target) = self.targets.pop() {
                self.follow(target)?;
            }
        } else {
            drop(self.runs.pop());
            self.close(run)?;
        }
        Ok(true)
    }

    /// Searches from a vertex that wasn't found, in at most so many turns.
    fn search(&mut self, vertex: usize, turns: usize) -> Result<(), Memory> {
        self.open(vertex)?;
        for _ in 0..turns {
            if !self.turn()? {
                return Ok(());
            }
        }
        Ok(())
    }
}

/// Searches a graph of so many vertices.
pub fn searched(alloc: Global, edges: &[Edge], count: usize) -> Result<Found, Memory> {
    let mut search = Search::new(alloc, edges, count)?;
    // A turn follows a step or closes a run.
    let turns = edges.len().saturating_add(count).saturating_add(1);
    for vertex in 0..count {
        if entry(&search.places, vertex) == 0 {
            search.search(vertex, turns)?;
        }
    }
    let Search { ranks, order, .. } = search;
    Ok(Found { ranks, order })
}
