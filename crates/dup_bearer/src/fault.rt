//! Why an event has no lines.

use gnb_types::items::Memory;

/// Nothing is known of the bearer afterwards.
#[derive(Clone, Copy, Debug, PartialEq, Eq)]
pub enum DupFault {
    /// The last COUNT was given.
    CountsSpent,
    Memory,
}

impl From<Memory> for DupFault {
    ghost use Rattle.std.specs.Prelude.{◌≡◌};
    ghost use Rattle.dup_bearer.specs.declared.fault.DupFault.TheVariants.{Memory as OutOfMemory};

    ghost from_gives = { λ _ fault. fault ≡ OutOfMemory };

    fn from(_error: Memory) -> DupFault {
        DupFault::Memory
    }
}
