//! Why a transmitting entity is of no use any more.

ghost use Rattle.std.specs.Prelude.{◌≡◌};
ghost use Rattle.dup_bearer.specs.dup_pdcp.Entity.{error_of};

use dup_defs::types::error::DupError;
use gnb_types::items::Memory;

/// From then on each call answers that.
#[derive(Clone, Copy, Debug, PartialEq, Eq)]
pub enum DupEnding {
    /// A packet could be numbered, and the last COUNT was given.
    Spent,
    Memory,
}

impl DupEnding {
    /// What calls answer.
    pub(crate) fn error(self) -> DupError
        ensures { result ≡ error_of self }
    {
        match self {
            DupEnding::Spent => DupError::Spent,
            DupEnding::Memory => DupError::Memory,
        }
    }
}

impl From<Memory> for DupEnding {
    ghost use Rattle.std.specs.Prelude.{◌≡◌};
    ghost use Rattle.dup_bearer.specs.declared.dup_pdcp.ending.DupEnding.TheVariants.{Memory as OutOfMemory};

    ghost from_gives = { λ _ ending. ending ≡ OutOfMemory };

    fn from(_error: Memory) -> DupEnding {
        DupEnding::Memory
    }
}
