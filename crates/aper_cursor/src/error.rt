//! Why a question has no answer.

use aper_defs::Reason;
use gnb_types::items::Memory;
use std::alloc::{AllocError, AllocFailed};

/// Why a question has no answer.
#[derive(Clone, Copy, Debug, PartialEq, Eq)]
pub enum Unanswered {
    /// The octets are wrong.
    Wrong(Reason),
    Memory,
}

impl From<Reason> for Unanswered {
    ghost use Rattle.std.specs.Prelude.{◌≡◌};
    ghost use Rattle.aper_cursor.specs.declared.error.Unanswered.TheVariants.{Wrong as Refused};

    ghost from_gives = { λ reason e. e ≡ Refused reason };

    fn from(reason: Reason) -> Unanswered {
        Unanswered::Wrong(reason)
    }
}

impl From<Memory> for Unanswered {
    ghost use Rattle.std.specs.Prelude.{◌≡◌};
    ghost use Rattle.aper_cursor.specs.declared.error.Unanswered.TheVariants.{Memory as OutOfMemory};

    ghost from_gives = { λ _ e. e ≡ OutOfMemory };

    fn from(_error: Memory) -> Unanswered {
        Unanswered::Memory
    }
}

impl From<AllocError> for Unanswered {
    ghost use Rattle.std.specs.Prelude.{◌≡◌};
    ghost use Rattle.aper_cursor.specs.declared.error.Unanswered.TheVariants.{Memory as OutOfMemory};

    ghost from_gives = { λ _ e. e ≡ OutOfMemory };

    fn from(_error: AllocError) -> Unanswered {
        Unanswered::Memory
    }
}

impl<T: Drop> From<AllocFailed<T>> for Unanswered {
    ghost use Rattle.std.specs.Prelude.{◌≡◌};
    ghost use Rattle.aper_cursor.specs.declared.error.Unanswered.TheVariants.{Memory as OutOfMemory};

    ghost from_gives = { λ _ e. e ≡ OutOfMemory };

    fn from(_error: AllocFailed<T>) -> Unanswered {
        Unanswered::Memory
    }
}
