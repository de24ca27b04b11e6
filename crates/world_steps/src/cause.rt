//! Why a run stops.

ghost use Rattle.std.specs.Prelude.{◌≡◌};
ghost use Rattle.world_steps.specs.Gives.{cause_of};

use gnb_types::items::Memory as NoMemory;
use run_links::spans::Outstanding;
use unit_messages::steps::StepError;

/// Why a run can't go on.
#[derive(Clone, Copy, Debug, PartialEq, Eq)]
pub enum Cause {
    /// The COUNTs of a bearer span more than half the space of its numbers.
    Outstanding(Outstanding),
    /// A counter, by its number, would pass its last value.
    Spent(u8),
    Memory,
}

impl From<NoMemory> for Cause {
    ghost use Rattle.std.specs.Prelude.{◌≡◌};
    ghost use Rattle.world_steps.specs.declared.cause.Cause.TheVariants.{Memory};

    ghost from_gives = { λ _ e. e ≡ Memory };

    fn from(_error: NoMemory) -> Cause {
        Cause::Memory
    }
}

/// Why a run stops where a unit failed.
pub fn cause_of(error: StepError) -> Cause
    ensures { result ≡ cause_of error }
{
    match error {
        StepError::Spent { counter } => Cause::Spent(counter),
        StepError::Memory => Cause::Memory,
    }
}
