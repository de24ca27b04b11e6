//! The end of the input, and what a check comes to.

ghost use Rattle.commands.specs.command_check.inside.Steps.{EndMeets};

use crate::input_lines::next_line;
use crate::input_module::ModuleStop;
use gnb_base::lines::LineReader;
use gnb_base::outside::Source;
use gnb_types::octets::Octets;
use scenario_text::event::TextReason;

/// A module that was read: its name, and how many types have names.
#[derive(Drop)]
pub struct CheckedModule {
    pub name: Octets,
    pub types: u32,
}

/// Finds the end of the input, where no line may follow.
pub fn take_end<S: Source>(reader: &mut LineReader, input: &mut S) -> Result<(), ModuleStop>
    ensures { EndMeets reader.old reader.new (S.at input.old) (S.at input.new) result }
{
    match next_line(reader, input)? {
        None => Ok(()),
        Some(line) => Err(ModuleStop::Script {
            place: line.number,
            reason: TextReason::Extra,
        }),
    }
}
