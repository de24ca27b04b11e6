//! Lines are written to a sink.

ghost use Rattle.std.specs.Prelude.{◌≡◌, IfOk};
ghost use Rattle.scenario_text.specs.Print.{print};
ghost use Rattle.commands.specs.command_output.Writes.{WritesText, WritesLines};

use command_defs::CommonEnd;
use gnb_base::outside::{Failed, Sink};
use gnb_types::octets::{Memory, Octets};
use scenario_text::line::OutLine;
use scenario_text::print::print_line;
use std::alloc::Global;

/// The text of lines, each with its LF.
pub fn text_of(alloc: Global, lines: &[OutLine]) -> Result<Octets, Memory>
    ensures { IfOk result (λ text. text ≡ print lines.now) }
{
    let mut text = Octets::new(alloc);
    for line in lines {
        text.append(print_line(alloc, line)?.as_slice())?;
        text.push(b'\n')?;
    }
    Ok(text)
}

/// Writes all these bytes, in as many pieces as the sink takes. Nothing is written after a write
/// that failed.
pub fn write_all<K: Sink>(output: &mut K, bytes: &[u8]) -> Result<(), Failed>
    ensures { WritesText (K.at output.old) (K.at output.new) bytes.now result }
{
    let mut rest = bytes;
    while !rest.is_empty() {
        let count = output.write(rest)?;
        let (_, unwritten) = rest.split_at(count);
        rest = unwritten;
    }
    Ok(())
}

/// Writes lines; none of them where memory runs out.
pub fn write_lines<K: Sink>(
    alloc: Global,
    output: &mut K,
    lines: &[OutLine],
) -> Result<(), CommonEnd>
    ensures { WritesLines (K.at output.old) (K.at output.new) lines.now result }
{
    match text_of(alloc, lines) {
        Ok(text) => match write_all(output, text.as_slice()) {
            Ok(()) => Ok(()),
            Err(_) => Err(CommonEnd::WriteFault),
        },
        Err(_) => Err(CommonEnd::Memory),
    }
}
