//! How a run stops in an event.

ghost use Rattle.std.specs.Prelude.{◌≡◌};
ghost use Rattle.world.specs.Worlds.{stopped};

use run_links::lines::Lines;
use run_links::spans::Outstanding;
use world_steps::cause::Cause;

/// Why an event can't be applied whole, with the lines of its steps that were made.
#[derive(Drop)]
pub enum Stop {
    /// After a step the COUNTs of a bearer span more than half the space of its numbers.
    Outstanding {
        outstanding: Outstanding,
        lines: Lines,
    },
    /// A counter, by its number, would pass its last value in the next step.
    Spent {
        counter: u8,
        lines: Lines,
    },
    /// Memory ran out.
    Memory,
}

impl Stop {
    /// The stop for this cause, with these lines.
    pub(crate) fn of(cause: Cause, lines: Lines) -> Stop
        ensures { result ≡ stopped cause lines }
    {
        match cause {
            Cause::Outstanding(outstanding) => Stop::Outstanding { outstanding, lines },
            Cause::Spent(counter) => Stop::Spent { counter, lines },
            Cause::Memory => Stop::Memory,
        }
    }
}
