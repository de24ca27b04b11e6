//! Why a text is no module.

ghost use Rattle.std.specs.Prelude.{◌≡◌};
ghost use Rattle.asn1_syntax.specs.declared.types.fault.ReadError.TheVariants.{Memory};

use gnb_types::octets::Memory;

/// What is wrong at a place of a text.
#[derive(Clone, Copy, Debug, PartialEq, Eq)]
pub enum ModuleReason {
    /// No lexical item begins here.
    Token = 1,
    /// No module goes on with this item.
    Form = 2,
    /// A name that is nowhere defined, or is of another kind.
    Unknown = 3,
    /// A name, id or code that was given before in its list.
    Twice = 4,
    /// The name of an assignment that reaches itself.
    Recursive = 5,
    /// A part of ASN.1 that the profile leaves out.
    OutOfProfile = 6,
    /// A number, size, id, code or count outside the profile's bounds.
    Bounds = 7,
    /// The name of an assignment that nests too deep.
    Deep = 8,
    /// The text ended too early.
    Truncated = 9,
}

/// The first fault of a text, and its offset.
#[derive(Clone, Copy, Debug, PartialEq, Eq)]
pub struct Fault {
    pub place: usize,
    pub reason: ModuleReason,
}

/// Why a text was not read.
#[derive(Clone, Copy, Debug, PartialEq, Eq)]
pub enum ReadError {
    Fault(Fault),
    Memory,
}

impl From<Memory> for ReadError {
    ghost from_gives = { λ _ e. e ≡ Memory };

    fn from(_error: Memory) -> ReadError {
        ReadError::Memory
    }
}
