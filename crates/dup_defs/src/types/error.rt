//! Why a transmitting entity with two legs gives no answer.

use gnb_types::items::Memory;

/// After the last two it is of no use.
#[derive(Clone, Copy, Debug, PartialEq, Eq)]
pub enum DupError {
    /// As many packets as the quota are unconfirmed or wait; nothing has changed.
    Quota,
    /// A packet could be numbered, and the last COUNT was given.
    Spent,
    Memory,
}

impl From<Memory> for DupError {
    ghost use Rattle.std.specs.Prelude.{◌≡◌};
    ghost use Rattle.dup_defs.specs.declared.types.error.DupError.TheVariants.{Memory as OutOfMemory};

    ghost from_gives = { λ _ error. error ≡ OutOfMemory };

    fn from(_error: Memory) -> DupError {
        DupError::Memory
    }
}
