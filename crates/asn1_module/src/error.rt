//! Why a text is no module.

ghost use Rattle.std.specs.Prelude.{◌≡◌};
ghost use Rattle.asn1_module.specs.declared.error.ModuleError.TheVariants.{Memory};

use asn1_syntax::types::ModuleReason;
use gnb_types::octets::Memory;

/// Why a text was not read as a module: its first fault, with line and column from 1, or want of memory.
#[derive(Clone, Copy, Debug, PartialEq, Eq)]
pub enum ModuleError {
    Refused {
        line: u64,
        column: u64,
        reason: ModuleReason,
    },
    Memory,
}

impl From<Memory> for ModuleError {
    ghost from_gives = { λ _ e. e ≡ Memory };

    fn from(_error: Memory) -> ModuleError {
        ModuleError::Memory
    }
}
