//! A line of the input is read here, for every word of the program.

ghost use Rattle.std.specs.Prelude.{◌≡◌};
ghost use Rattle.commands.specs.input_lines.ReadsLine.{end_of_read as end_of_error, ReadsLine};

use command_defs::input_defs::InputEnd;
use gnb_base::lines::{Line, LineReader, ReadError};
use gnb_base::outside::Source;

/// How the reading ends whose reader could not hand out a line.
fn end_of_read(error: ReadError, taken: u64) -> InputEnd
    ensures { result ≡ end_of_error error taken }
{
    match error {
        ReadError::ReadFault => InputEnd::ReadFault { taken },
        ReadError::TooLong => InputEnd::TooLong,
        ReadError::Memory => InputEnd::Memory,
    }
}

/// The next line of the input, `None` at its end.
pub fn next_line<S: Source>(
    reader: &mut LineReader,
    input: &mut S,
) -> Result<Option<Line>, InputEnd>
    ensures { ReadsLine reader.old reader.new (S.at input.old) (S.at input.new) result }
{
    match reader.next(input) {
        Ok(line) => Ok(line),
        Err(error) => Err(end_of_read(error, reader.read_so_far())),
    }
}
