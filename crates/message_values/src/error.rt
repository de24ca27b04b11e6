//! Why no message is heard in a value.

use gnb_types::items::Memory;

/// Why no message is heard in a value.
#[derive(Clone, Copy, Debug, PartialEq, Eq)]
pub enum MsgError {
    /// The procedure isn't in the set, or has no such outcome.
    UnknownProcedure { code: u8, criticality: u8 },
    /// The first information element that isn't known and has criticality reject.
    UnknownIe { id: u16 },
    Memory,
}

impl From<Memory> for MsgError {
    ghost use Rattle.std.specs.Prelude.{◌≡◌};
    ghost use Rattle.message_values.specs.declared.error.MsgError.TheVariants.{Memory as OutOfMemory};

    ghost from_gives = { λ _ e. e ≡ OutOfMemory };

    fn from(_error: Memory) -> MsgError {
        MsgError::Memory
    }
}
