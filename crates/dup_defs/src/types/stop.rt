//! Why a run of a bearer with duplication stops.

use crate::types::line::DupLine;
use gnb_types::items::{Items, Memory};

/// The lines of an event.
pub type DupLines = Items<DupLine>;

/// Why a run has ended.
#[derive(Clone, Copy, PartialEq, Eq)]
pub enum DupEnd {
    /// So many COUNTs are outstanding, more than may be.
    Outstanding { span: u32, window: u32 },
    /// The last COUNT was given.
    CountsSpent,
}

/// Why an event isn't done, or is the last: with its lines, where the run ends in it, and with none from then on.
#[derive(Drop)]
pub enum DupStop {
    Outstanding {
        span: u32,
        window: u32,
        lines: DupLines,
    },
    CountsSpent {
        lines: DupLines,
    },
    Memory,
}

impl From<Memory> for DupStop {
    ghost use Rattle.std.specs.Prelude.{◌≡◌};
    ghost use Rattle.dup_defs.specs.declared.types.stop.DupStop.TheVariants.{Memory as OutOfMemory};

    ghost from_gives = { λ _ stop. stop ≡ OutOfMemory };

    fn from(_error: Memory) -> DupStop {
        DupStop::Memory
    }
}
