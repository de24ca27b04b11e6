//! Why a receiving entity takes no packet.

use gnb_types::items::Memory;

/// The first reason that applies; the entity is then as it was, but where memory ran out.
#[derive(Clone, Copy, Debug, PartialEq, Eq)]
pub enum UmError {
    /// No COUNT that is ever given has the number near the awaited one.
    NoCount,
    /// The COUNT is below RX_DELIV.
    Late { count: u32 },
    /// A packet of this COUNT is stored.
    Duplicate { count: u32 },
    /// The COUNT is 1,024 or more above RX_DELIV.
    Ahead { count: u32 },
    /// Out of memory.
    Memory,
}

impl From<Memory> for UmError {
    ghost use Rattle.std.specs.Prelude.{◌≡◌};
    ghost use Rattle.um_defs.specs.declared.types.error.UmError.TheVariants.{Memory as OutOfMemory};

    ghost from_gives = { λ _ error. error ≡ OutOfMemory };

    fn from(_error: Memory) -> UmError {
        UmError::Memory
    }
}
