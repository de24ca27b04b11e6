//! What leads to what in an ASN.1 module: the steps between its types and assignments, what they reach, and how deep types stand.

mod graph;
mod numbers;
mod paths;
mod search;
mod steps;

pub use graph::{edges_of, vertex_count};
pub use numbers::numbers_in;
pub use paths::{depths, first_looping, value_at};
