//! What hops refuse.

use gnb_types::octets::Memory as NoMemory;
use thiserror::Error;

/// Why a call of a hop changed nothing.
#[derive(Clone, Copy, Debug, PartialEq, Eq, Error)]
pub enum HopError {
    #[error("the SN status was not taken yet")]
    NoStatus,
    #[error("this direction ended before")]
    EndSeen,
    #[error("the COUNT would be below 0")]
    BelowZero,
    #[error("out of memory")]
    Memory,
}

impl From<NoMemory> for HopError {
    ghost use Rattle.std.specs.Prelude.{◌≡◌};
    ghost use Rattle.forwarding.specs.declared.error.HopError.TheVariants.{Memory};

    ghost from_gives = { λ _ e. e ≡ Memory };

    fn from(_error: NoMemory) -> HopError {
        HopError::Memory
    }
}
