//! The header of an input.

ghost use Rattle.std.specs.Prelude.{◌≡◌};
ghost use Rattle.commands.specs.input_module.Header.{header_of};

use profile::Version;
use scenario_text::script_words::reason::TextReason;

/// The module that a header names.
#[derive(Clone, Copy, PartialEq, Eq)]
pub enum ModuleHeader {
    /// The one whose text follows: `module text`.
    Text,
    /// This version of the profile: `module builtin`, `module builtin 2`.
    Builtin(Version),
}

/// Reads a header, without its LF, of a word that takes the profile up to this version.
pub fn read_header(newest: Version, line: &[u8]) -> Result<ModuleHeader, TextReason>
    ensures { result ≡ header_of newest line.now }
{
    if line == b"module text".as_slice() {
        Ok(ModuleHeader::Text)
    } else if line == b"module builtin".as_slice() {
        Ok(ModuleHeader::Builtin(Version::One))
    } else if matches!(newest, Version::Two) && line == b"module builtin 2".as_slice() {
        Ok(ModuleHeader::Builtin(Version::Two))
    } else if line.starts_with(b"module text ") || line.starts_with(b"module builtin ") {
        Err(TextReason::Extra)
    } else {
        Err(TextReason::Word)
    }
}
