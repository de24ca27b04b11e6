//! Values.

use gnb_types::bits::Bits;
use gnb_types::octets::Octets;

/// The members of a SEQUENCE OF.
pub type Values = Vec<Value>;

/// The components of a SEQUENCE, or its additions: one that is absent has a place too.
pub type OptValues = Vec<Option<Value>>;

/// The information elements of a container.
pub type Ies = Vec<Ie>;

/// An information element. Its criticality is 0 reject, 1 ignore, 2 notify.
pub type Ie = Element<Value>;

/// A value, whatever its type.
#[derive(Debug, Drop)]
pub enum Value {
    Bool(bool),
    Int(i128),
    /// The place of a name among those of the root, then among the additions.
    Enum(u32),
    Bits(Bits),
    Octets(Octets),
    Text(Octets),
    /// A SEQUENCE. No additions stand for an extension bit that is 0.
    Seq {
        root: OptValues,
        additions: OptValues,
    },
    /// A CHOICE: the place of the alternative, then among the additions.
    Choice(u32, Box<Value>),
    List(Values),
    Ies(Ies),
    /// A Protocol-PDU: 0 initiating message, 1 successful outcome, 2 unsuccessful outcome, then those past the root.
    Pdu {
        outcome: u32,
        code: u8,
        criticality: u8,
        body: Box<Value>,
    },
    /// Octets of something that isn't known.
    Raw(Octets),
}

/// What an information element is, with a body of any kind.
#[derive(Debug, Drop)]
pub struct Element<B> {
    pub id: u16,
    pub criticality: u8,
    pub body: B,
}
