//! The types of ASN.1 modules (X.680), in the part of ASN.1 that this project reads: how they are kept, and how they are read.

mod definition;
mod fault;
mod items;
mod members;
mod names;
mod reader;
mod sizes;
mod stack;
mod types;

pub use definition::{Component, Definition, Extensible, Node, Size, TypeId};
pub use fault::{Fault, ModuleReason, ReadError};
pub use items::Items;
pub use names::has_name;
pub use reader::Reader;
