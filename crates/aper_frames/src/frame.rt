//! Values inside which another one is being read.

use crate::flags::Flags;
use crate::heads::ElementHead;
use aper_values::value::{Ies, OptValues, Value, Values};
use asn1_syntax::assignments::IeRow;
use asn1_syntax::types::{Component, TypeId};

/// The components of a SEQUENCE that are still to be read.
#[derive(Drop)]
pub struct Components<'m> {
    pub left: &'m [Component],
    /// Which of them are there.
    pub there: Flags,
    /// The values of those before them.
    pub made: OptValues,
    /// The named additions, and whether additions follow.
    pub additions: &'m [Component],
    pub extended: bool,
}

/// The additions of a SEQUENCE that are still to be read.
#[derive(Drop)]
pub struct Additions<'m> {
    /// Those that are named.
    pub left: &'m [Component],
    /// Which are there, with those that aren't named.
    pub there: Flags,
    /// The values of those before them.
    pub made: OptValues,
    /// The values of the components.
    pub root: OptValues,
}

/// The members of a SEQUENCE OF that are still to be read, and the values of those before them.
#[derive(Drop)]
pub struct Members {
    pub element: TypeId,
    pub left: u64,
    pub made: Values,
}

/// The information elements of a container that are still to be read.
#[derive(Drop)]
pub struct Elements<'m> {
    /// The rows of the set, and those that may still come.
    pub rows: &'m [IeRow],
    pub possible: &'m [IeRow],
    pub left: u64,
    /// Those before them.
    pub made: Ies,
}

/// A component with this name is read, then the others.
#[derive(Drop)]
pub struct ComponentFrame<'m> {
    pub name: &'m [u8],
    pub others: Components<'m>,
}

/// An addition is read, then the others. One that isn't known has no name.
#[derive(Drop)]
pub struct AdditionFrame<'m> {
    pub name: Option<&'m [u8]>,
    pub others: Additions<'m>,
}

/// The alternative of a CHOICE with this place is read. One that isn't known has no name.
#[derive(Drop)]
pub struct AlternativeFrame<'m> {
    pub name: Option<&'m [u8]>,
    pub index: u32,
}

/// The information element of this head is read, then the others.
#[derive(Drop)]
pub struct ElementFrame<'m> {
    pub head: ElementHead,
    pub others: Elements<'m>,
}

/// The body of a PDU is read.
#[derive(Drop)]
pub struct BodyFrame {
    pub outcome: u32,
    pub code: u8,
    pub criticality: u8,
}

/// A value inside which another one is being read.
#[derive(Drop)]
pub enum Frame<'m> {
    Component(ComponentFrame<'m>),
    Addition(AdditionFrame<'m>),
    Alternative(AlternativeFrame<'m>),
    /// A member is read, then the others.
    Member(Members),
    Element(ElementFrame<'m>),
    Body(BodyFrame),
    /// An open type that ends after this value.
    Open,
}

/// What comes next: a value of a type is to be read, or one has been made.
#[derive(Drop)]
pub enum Turn {
    Read(TypeId),
    Made(Value),
}
