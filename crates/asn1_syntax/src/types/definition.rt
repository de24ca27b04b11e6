//! The types of a module.

use crate::types::items::Items;
use gnb_types::octets::Octets;

/// A type, by its number in the module's list of types: those that stand inside another one have numbers too.
#[derive(Clone, Copy, PartialEq, Eq)]
pub struct TypeId {
    pub number: usize,
}

/// How many bits, octets, characters or members a value has; with `extensible` it may have another number too
/// (X.680, 51.5).
#[derive(Clone, Copy, PartialEq, Eq)]
pub struct Size {
    pub low: u32,
    pub high: u32,
    pub extensible: bool,
}

/// The parts of a type that `...` may extend: those of its root, and with `...` the additions that follow it.
#[derive(Drop)]
pub struct Extensible<T> {
    pub root: Items<T>,
    pub additions: Option<Items<T>>,
}

/// A component of a SEQUENCE, or an alternative of a CHOICE, which is never optional.
#[derive(Drop)]
pub struct Component {
    pub name: Octets,
    pub definition: TypeId,
    pub optional: bool,
}

/// A type.
#[derive(Drop)]
pub enum Definition {
    Boolean,
    Integer {
        low: i128,
        high: i128,
        extensible: bool,
    },
    Enumerated(Extensible<Octets>),
    BitString(Option<Size>),
    OctetString(Option<Size>),
    PrintableString(Option<Size>),
    Sequence(Extensible<Component>),
    Choice(Extensible<Component>),
    SequenceOf {
        size: Option<Size>,
        element: TypeId,
    },
    /// A type name.
    Reference(Octets),
    /// A list of information elements of this set.
    IeContainer(Octets),
    /// A message of a procedure of this set.
    Pdu(Octets),
}

/// A type, and the offset in the text of the name that it refers by; for a type that refers to none, of its first word.
#[derive(Drop)]
pub struct Node {
    pub definition: Definition,
    pub place: usize,
}
