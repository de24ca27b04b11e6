//! Definitions alone: which texts are ASN.1 modules (X.680, in the part of it that this project reads), what they mean, and what is wrong
//! with the others. `specs/Lib.antt` has them in reading order; docs/definitions/modules.md tells them.
#![tactic(auto)]

mod graph;
mod names;

pub use graph::Edge;
pub use names::Kind;
