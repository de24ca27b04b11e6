//! Why an input doesn't begin with a header and a module.

ghost use Rattle.std.specs.Prelude.{◌≡◌};
ghost use Rattle.command_defs.specs.declared.input_defs.InputEnd.TheVariants.{Memory as OutOfMemory};
ghost use Rattle.commands.specs.declared.input_module.stop.ModuleStop.TheVariants.{Input as InputStop};

use asn1_syntax::types::ModuleReason;
use command_defs::input_defs::InputEnd;
use gnb_types::octets::Memory;
use scenario_text::script_words::reason::TextReason;

/// Why an input isn't a header and a module, or not these alone.
#[derive(Clone, Copy, PartialEq, Eq)]
pub enum ModuleStop {
    /// The text is no module: its first fault, with the line of the input.
    NoModule {
        line: u64,
        column: u64,
        reason: ModuleReason,
    },
    /// The line at `place` is no header or one too many, or it is the last one of a text that goes
    /// on after its module.
    Script {
        place: u64,
        reason: TextReason,
    },
    /// No further line could be read, or out of memory.
    Input(InputEnd),
}

impl From<Memory> for ModuleStop {
    ghost from_gives = { λ _ stop. stop ≡ InputStop OutOfMemory };

    fn from(_error: Memory) -> ModuleStop {
        ModuleStop::Input(InputEnd::Memory)
    }
}

impl From<InputEnd> for ModuleStop {
    ghost from_gives = { λ end stop. stop ≡ InputStop end };

    fn from(end: InputEnd) -> ModuleStop {
        ModuleStop::Input(end)
    }
}
