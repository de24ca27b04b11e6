//! Why a run of an unacknowledged bearer stops.

use crate::types::line::UmLine;
use gnb_types::items::{Items, Memory};

/// The lines of an event.
pub type UmLines = Items<UmLine>;

/// Why an event isn't done.
#[derive(Clone, Copy, Debug, PartialEq, Eq)]
pub enum UmFault {
    /// A counter, by its number, would pass its last value.
    Spent { counter: u8 },
    Memory,
}

impl From<Memory> for UmFault {
    ghost use Rattle.std.specs.Prelude.{◌≡◌};
    ghost use Rattle.um_defs.specs.declared.types.stop.UmFault.TheVariants.{Memory as OutOfMemory};

    ghost from_gives = { λ _ fault. fault ≡ OutOfMemory };

    fn from(_error: Memory) -> UmFault {
        UmFault::Memory
    }
}

/// Why a run has ended.
#[derive(Clone, Copy, PartialEq, Eq)]
pub enum UmEnd {
    /// So many COUNTs are outstanding, more than may be.
    Outstanding { span: u32, window: u32 },
    /// A counter, by its number, would pass its last value.
    Spent { counter: u8 },
}

/// Why an event isn't done, or is the last: with its lines, where the run ends in it, and with none from then on.
#[derive(Drop)]
pub enum UmStop {
    Outstanding {
        span: u32,
        window: u32,
        lines: UmLines,
    },
    Spent {
        counter: u8,
        lines: UmLines,
    },
    Memory,
}

impl From<Memory> for UmStop {
    ghost use Rattle.std.specs.Prelude.{◌≡◌};
    ghost use Rattle.um_defs.specs.declared.types.stop.UmStop.TheVariants.{Memory as OutOfMemory};

    ghost from_gives = { λ _ stop. stop ≡ OutOfMemory };

    fn from(_error: Memory) -> UmStop {
        UmStop::Memory
    }
}
