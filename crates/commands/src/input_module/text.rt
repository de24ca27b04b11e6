//! The header of an input, and the lines of the module's text after it.

ghost use Rattle.std.specs.Prelude.{◌≡◌, ◌+◌, ◌-◌, ◌++◌, ◌∷◌, [], OnOk, take};
ghost use Rattle.gnb_base.specs.Reading.{fresh};
ghost use Rattle.commands.specs.input_module.Text.{is_end as ends_text};
ghost use Rattle.commands.specs.input_module.inside.Steps.{HeaderMeets, text_at, TurnMeets, TakenMeets};

use crate::input_lines::next_line;
use crate::input_module::header::{ModuleHeader, read_header};
use crate::input_module::stop::ModuleStop;
use gnb_base::lines::{Line, LineReader};
use gnb_base::outside::Source;
use gnb_types::octets::{Memory, Octets};
use profile::Version;
use scenario_text::script_words::reason::TextReason;
use std::alloc::Global;

/// The first line of an input: what it names, and how many octets it has without its LF.
#[derive(Clone, Copy)]
pub struct FirstLine {
    pub header: ModuleHeader,
    pub octets: usize,
}

/// The lines of a text, each with its LF, and the number of the last one; `header` is how many
/// octets the header has.
#[derive(Drop)]
pub struct Gathered {
    pub header: usize,
    pub octets: Octets,
    pub last: u64,
}

impl Gathered {
    /// The octets of the lines as they stand in an input of which so many bytes were read: the last
    /// LF may be missing.
    pub fn text(&self, read: u64) -> &[u8]
        ensures { result.now ≡ take (read - (self.now.header + 1)) self.now.octets }
    {
        let after = (read as usize).saturating_sub(self.header.saturating_add(1));
        let octets = self.octets.as_slice();
        &octets[..after.min(octets.len())]
    }
}

/// What a header names, with the lines that it asks for.
#[derive(Drop)]
pub enum Taken {
    Text(Gathered),
    Builtin(Version),
}

/// Whether a line ends a module's text.
fn is_end(line: &Line) -> bool
    ensures { result ≡ ends_text line.now.text }
{
    line.text.as_slice() == b"END".as_slice()
}

/// Puts a line with its LF after octets.
fn append_line(octets: &mut Octets, line: &Line) -> Result<(), Memory>
    ensures { OnOk result (octets.new ≡ octets.old ++ (line.now.text ++ 10 ∷ [])) }
{
    octets.append(line.text.as_slice())?;
    octets.push(b'\n')
}

/// Reads the header, the first line of the input.
fn take_header<S: Source>(
    newest: Version,
    reader: &mut LineReader,
    input: &mut S,
) -> Result<FirstLine, ModuleStop>
    ensures { HeaderMeets newest reader.old reader.new (S.at input.old) (S.at input.new) result }
{
    let Some(line) = next_line(reader, input)? else {
        return Err(ModuleStop::Script {
            place: 1,
            reason: TextReason::Word,
        });
    };
    match read_header(newest, line.text.as_slice()) {
        Ok(header) => Ok(FirstLine {
            header,
            octets: line.text.len(),
        }),
        Err(reason) => Err(ModuleStop::Script { place: 1, reason }),
    }
}

/// Takes the next line, and puts it after the others; `None` at the end of the input.
fn take_line<S: Source>(
    reader: &mut LineReader,
    input: &mut S,
    octets: &mut Octets,
) -> Result<Option<Line>, ModuleStop>
    ensures { TurnMeets (text_at reader.old (S.at input.old) octets.old)
        (text_at reader.new (S.at input.new) octets.new) result }
{
    let Some(line) = next_line(reader, input)? else {
        return Ok(None);
    };
    append_line(octets, &line)?;
    Ok(Some(line))
}

/// Takes the header and, where it says that a text follows, the lines after it, up to and with the
/// first line `END` or to the end of the input.
pub fn take_text<S: Source>(
    alloc: Global,
    newest: Version,
    reader: &mut LineReader,
    input: &mut S,
) -> Result<Taken, ModuleStop>
    requires { reader.old ≡ fresh }
    ensures { TakenMeets newest (S.at input.old) (S.at input.new) reader.new result }
{
    let first = take_header(newest, reader, input)?;
    match first.header {
        ModuleHeader::Builtin(version) => Ok(Taken::Builtin(version)),
        ModuleHeader::Text => {
            let mut gathered = Gathered {
                header: first.octets,
                octets: Octets::new(alloc),
                last: 1,
            };
            loop {
                let Some(line) = take_line(reader, input, &mut gathered.octets)? else {
                    return Ok(Taken::Text(gathered));
                };
                gathered.last = line.number;
                if is_end(&line) {
                    return Ok(Taken::Text(gathered));
                }
            }
        }
    }
}
