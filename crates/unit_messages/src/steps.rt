//! What a step of a unit answers: its outputs in order, or why there are none.

use gnb_types::octets::Memory as NoMemory;
use thiserror::Error;

/// Why a unit makes no step. It is of no use from then on.
#[derive(Clone, Copy, Debug, PartialEq, Eq, Error)]
pub enum StepError {
    /// A counter, by its number, would pass its last value.
    #[error("a counter would pass its last value")]
    Spent { counter: u8 },
    #[error("out of memory")]
    Memory,
}

impl From<NoMemory> for StepError {
    ghost use Rattle.std.specs.Prelude.{◌≡◌};
    ghost use Rattle.unit_messages.specs.declared.steps.StepError.TheVariants.{Memory};

    ghost from_gives = { λ _ e. e ≡ Memory };

    fn from(_error: NoMemory) -> StepError {
        StepError::Memory
    }
}
