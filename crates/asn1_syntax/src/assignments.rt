//! The assignments of ASN.1 modules: types, sets of information elements and sets of procedures.

mod assigned;
mod assignment;
mod ie_rows;
mod index;
mod rows;
mod sets;
mod syntax;

pub use assignment::{Assignment, Body, Criticality, IeRow, Presence, ProcedureRow, Syntax};
pub use index::{NameIndex, index_of};
pub use syntax::read_syntax;
