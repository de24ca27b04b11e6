//! The module that an input's header names.

ghost use Rattle.std.specs.Prelude.{◌≡◌, IfOk};
ghost use Rattle.gnb_base.specs.Reading.{fresh};
ghost use Rattle.commands.specs.input_module.Text.{is_blank as blank};
ghost use Rattle.commands.specs.input_module.Taking.{TakesModule};
ghost use Rattle.commands.specs.input_module.inside.Steps.{ReadsFront, AloneMeets};

use crate::input_module::stop::ModuleStop;
use crate::input_module::text::{Taken, take_text};
use asn1_module::{Module, ModuleError, read_module};
use asn1_tokens::{Token, Tokens};
use command_defs::input_defs::InputEnd;
use gnb_base::lines::LineReader;
use gnb_base::outside::Source;
use gnb_types::octets::Memory;
use profile::Version;
use scenario_text::script_words::reason::TextReason;
use std::alloc::Global;

/// The module that a header names.
#[derive(Drop)]
pub enum GivenModule {
    /// The one whose text follows the header.
    Text(Module),
    /// This version of the profile, of which nothing was read.
    Builtin(Version),
}

/// Whether these octets are white space and comments alone.
fn is_blank(alloc: Global, text: &[u8]) -> Result<bool, Memory>
    ensures { IfOk result (λ found. found ≡ blank text.now) }
{
    let tokens = Tokens::new(alloc, text)?;
    Ok(matches!(tokens.token(), Token::EndOfText))
}

/// Reads the module of a text, whose lines begin at line 2 of the input.
fn read_text(alloc: Global, text: &[u8]) -> Result<(Module, usize), ModuleStop>
    ensures { ReadsFront text.now result }
{
    match read_module(alloc, text) {
        Ok(read) => Ok(read),
        Err(
            ModuleError::Refused {
                line,
                column,
                reason,
            },
        ) => Err(ModuleStop::NoModule {
            line: line + 1,
            column,
            reason,
        }),
        Err(ModuleError::Memory) => Err(ModuleStop::Input(InputEnd::Memory)),
    }
}

/// Reads a text that is one module, and whose last line has this number.
fn read_alone(alloc: Global, text: &[u8], last: u64) -> Result<Module, ModuleStop>
    ensures { AloneMeets text.now last result }
{
    let (module, end) = read_text(alloc, text)?;
    if !is_blank(alloc, &text[end.min(text.len())..])? {
        return Err(ModuleStop::Script {
            place: last,
            reason: TextReason::Extra,
        });
    }
    Ok(module)
}

/// Takes the header, the first line of the input, of a word that takes the profile up to this
/// version, and the module that it names.
pub fn take_module<S: Source>(
    alloc: Global,
    newest: Version,
    reader: &mut LineReader,
    input: &mut S,
) -> Result<GivenModule, ModuleStop>
    requires { reader.old ≡ fresh }
    ensures { TakesModule newest (S.at input.old) (S.at input.new) reader.new result }
{
    match take_text(alloc, newest, reader, input)? {
        Taken::Builtin(version) => Ok(GivenModule::Builtin(version)),
        Taken::Text(gathered) => {
            let text = gathered.text(reader.read_so_far());
            Ok(GivenModule::Text(read_alone(alloc, text, gathered.last)?))
        }
    }
}
