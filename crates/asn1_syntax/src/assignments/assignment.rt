//! What the names of a module stand for.

use crate::types::{Items, Node, TypeId};
use gnb_types::octets::Octets;

/// What a receiver does that doesn't know an information element or a procedure.
#[derive(Clone, Copy, PartialEq, Eq)]
pub enum Criticality {
    Reject,
    Ignore,
    Notify,
}

/// Whether an information element is always there.
#[derive(Clone, Copy, PartialEq, Eq)]
pub enum Presence {
    Mandatory,
    Optional,
}

/// An information element of a set.
#[derive(Clone, Copy, PartialEq, Eq)]
pub struct IeRow {
    pub id: u16,
    pub criticality: Criticality,
    pub definition: TypeId,
    pub presence: Presence,
}

/// A procedure of a set.
#[derive(Clone, Copy, PartialEq, Eq)]
pub struct ProcedureRow {
    pub initiating: TypeId,
    pub successful: Option<TypeId>,
    pub unsuccessful: Option<TypeId>,
    pub code: u8,
    pub criticality: Criticality,
}

/// What a name stands for.
#[derive(Drop)]
pub enum Body {
    Type(TypeId),
    IeSet(Items<IeRow>),
    ProcedureSet(Items<ProcedureRow>),
}

/// A name, its offset in the text, and what it stands for. Its types are those of the module's list from the end of the
/// assignment before to `end`.
#[derive(Drop)]
pub struct Assignment {
    pub name: Octets,
    pub place: usize,
    pub body: Body,
    pub end: usize,
}

/// A module as it stands in a text: its name, what its names stand for, and the types that stand in these.
/// `end` is the offset behind its last word.
#[derive(Drop)]
pub struct Syntax {
    pub name: Octets,
    pub assignments: Items<Assignment>,
    pub nodes: Items<Node>,
    pub end: usize,
}
