//! The text of events and of lines.

ghost use Rattle.std.specs.Prelude.{◌≡◌, ◌++◌, IfOk};
ghost use Rattle.std.specs.String.{string_bytes};
ghost use Rattle.gnb_types.specs.Hex.{hex_of};
ghost use Rattle.um.specs.text.Texts.{event_text};
ghost use Rattle.um.specs.text.Print.{pdu_line, packet_line, line_text, print, happens_text};
ghost use Rattle.um.specs.text.inside.Fronts.{message_words, delivery_words};

use gnb_types::hex::hex_text;
use gnb_types::octets::{Memory, Octets};
use std::alloc::Global;
use um_defs::types::event::UmEvent;
use um_defs::types::line::UmLine;

fn octets(text: String) -> Octets
    ensures { result ≡ string_bytes text }
{
    Octets::from_vec(text.into_bytes())
}

/// A text, and the digits of these bytes after it.
fn with_hex(alloc: Global, front: String, bytes: &[u8]) -> Result<Octets, Memory>
    ensures { IfOk result (λ text. text ≡ string_bytes front ++ hex_of bytes.now) }
{
    let mut text = octets(front);
    text.append(hex_text(alloc, bytes)?.as_slice())?;
    Ok(text)
}

/// The text of an event, without its LF.
#[tactic(auto, unfolding(crate::specs::text::Texts::event_text))]
pub fn print_event(alloc: Global, event: &UmEvent) -> Result<Octets, Memory>
    ensures { IfOk result (λ text. text ≡ event_text event.now) }
{
    let text = match event {
        UmEvent::Offer { packet } => {
            return with_hex(alloc, format!(in alloc; "offer ")?, packet.as_slice());
        }
        UmEvent::Give { number } => format!(in alloc; "give #{number}")?,
        UmEvent::Again { number } => format!(in alloc; "again #{number}")?,
        UmEvent::Lose { number } => format!(in alloc; "lose #{number}")?,
        UmEvent::Tick => format!(in alloc; "tick")?,
        UmEvent::Ask => format!(in alloc; "ask")?,
    };
    Ok(octets(text))
}

/// The words of a message before its octets.
fn message_front(alloc: Global, word: &str, number: u32, count: u32) -> Result<String, Memory>
    ensures { IfOk result (λ front. string_bytes front ≡ message_words word.now number count) }
{
    Ok(format!(in alloc; "{word} #{number} {count} ")?)
}

/// `WORD #M C HEX`
fn pdu_text(
    alloc: Global,
    word: &str,
    number: u32,
    count: u32,
    pdu: &[u8],
) -> Result<Octets, Memory>
    ensures { IfOk result (λ text. text ≡ pdu_line word.now number count pdu.now) }
{
    let front = message_front(alloc, word, number, count)?;
    with_hex(alloc, front, pdu)
}

/// The words of a delivery before its octets.
fn delivery_front(alloc: Global, count: u32) -> Result<String, Memory>
    ensures { IfOk result (λ front. string_bytes front ≡ delivery_words count) }
{
    Ok(format!(in alloc; "deliver {count} ")?)
}

/// `deliver C HEX`
fn packet_text(alloc: Global, count: u32, packet: &[u8]) -> Result<Octets, Memory>
    ensures { IfOk result (λ text. text ≡ packet_line count packet.now) }
{
    let front = delivery_front(alloc, count)?;
    with_hex(alloc, front, packet)
}

/// The text of a line, without its LF.
#[tactic(auto, unfolding(crate::specs::text::Print::line_text))]
pub fn print_line(alloc: Global, line: &UmLine) -> Result<Octets, Memory>
    ensures { IfOk result (λ text. text ≡ line_text line.now) }
{
    let text = match line {
        UmLine::Put { number, count, pdu } => {
            return pdu_text(alloc, "put", *number, *count, pdu.as_slice());
        }
        UmLine::Got { number, count, pdu } => {
            return pdu_text(alloc, "got", *number, *count, pdu.as_slice());
        }
        UmLine::Deliver { count, packet } => {
            return packet_text(alloc, *count, packet.as_slice());
        }
        UmLine::Lost { number } => format!(in alloc; "lost #{number} 1")?,
        UmLine::DropLate => format!(in alloc; "drop Late")?,
        UmLine::DropDuplicate => format!(in alloc; "drop Duplicate")?,
        UmLine::Held { number } => format!(in alloc; "held #{number} Ahead")?,
        UmLine::Waiting {
            deliv,
            next,
            stored,
        } => format!(in alloc; "waiting {deliv} {next} {stored}")?,
        UmLine::Refused { reason } => format!(in alloc; "refused {reason}")?,
        UmLine::Outstanding { span, window } => format!(in alloc; "outstanding {span} {window}")?,
    };
    Ok(octets(text))
}

/// The text of an event's own line and of the lines that it prints, each with its LF.
pub fn print_happening(alloc: Global, event: &UmEvent, lines: &[UmLine]) -> Result<Octets, Memory>
    ensures { IfOk result (λ text. text ≡ happens_text event.now ++ print lines.now) }
{
    let mut text = Octets::from_slice(alloc, b"> ")?;
    text.append(print_event(alloc, event)?.as_slice())?;
    text.push(b'\n')?;
    for line in lines {
        text.append(print_line(alloc, line)?.as_slice())?;
        text.push(b'\n')?;
    }
    Ok(text)
}
