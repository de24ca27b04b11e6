//! ASN.1 modules: the types of a text and their names, or the text's first fault.
#![tactic(auto)]

mod error;
pub mod graph;
mod judgement;
mod module;
mod names;
mod position;

pub use asn1_syntax::assignments::{Criticality, IeRow, Presence, ProcedureRow};
pub use asn1_syntax::types::{
    Component, Definition, Extensible, Items, ModuleReason, Size, TypeId,
};
pub use error::ModuleError;
pub use module::{Module, read_module};
