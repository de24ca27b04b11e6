//! One step of a module.

/// One step, from a vertex to another. The vertices are a module's types by their numbers, and then its assignments.
#[derive(Clone, Copy, PartialEq, Eq)]
pub struct Edge {
    pub from: usize,
    pub to: usize,
}
