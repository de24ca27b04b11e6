//! The text of events and of lines.

ghost use Rattle.std.specs.Prelude.{◌≡◌, ◌++◌, IfOk};
ghost use Rattle.std.specs.String.{string_bytes};
ghost use Rattle.gnb_types.specs.Hex.{hex_of};
ghost use Rattle.dup.specs.text.Arguments.{leg_text, mode_text};
ghost use Rattle.dup.specs.text.Texts.{event_text};
ghost use Rattle.dup.specs.text.Print.{pdu_line, packet_line, refusal_text, line_text, print, happens_text};
ghost use Rattle.dup.specs.text.inside.Fronts.{pdu_words, delivery_words};

use dup_defs::types::event::DupEvent;
use dup_defs::types::leg::{Leg, Mode};
use dup_defs::types::line::{DupLine, DupRefusal};
use gnb_types::hex::hex_text;
use gnb_types::octets::{Memory, Octets};
use std::alloc::Global;

fn octets(text: String) -> Octets
    ensures { result ≡ string_bytes text }
{
    Octets::from_vec(text.into_bytes())
}

/// A text, and the digits of these bytes after it.
fn with_hex(alloc: Global, front: String, bytes: &[u8]) -> Result<Octets, Memory>
    ensures { IfOk result (λ text. text ≡ string_bytes front ++ hex_of bytes.now) }
{
    let mut text = octets(front);
    text.append(hex_text(alloc, bytes)?.as_slice())?;
    Ok(text)
}

/// `1` or `2`
fn leg_word(leg: Leg) -> &'static str
    ensures { result.now ≡ leg_text leg }
{
    match leg {
        Leg::First => "1",
        Leg::Second => "2",
    }
}

/// `both`, `1` or `2`
fn mode_word(mode: Mode) -> &'static str
    ensures { result.now ≡ mode_text mode }
{
    match mode {
        Mode::Both => "both",
        Mode::First => "1",
        Mode::Second => "2",
    }
}

fn refusal_word(reason: DupRefusal) -> &'static str
    ensures { result.now ≡ refusal_text reason }
{
    match reason {
        DupRefusal::Size => "Size",
        DupRefusal::Quota => "Quota",
        DupRefusal::Down => "Down",
        DupRefusal::Empty => "Empty",
        DupRefusal::Up => "Up",
        DupRefusal::Same => "Same",
    }
}

/// The text of an event, without its LF.
#[tactic(auto, unfolding(crate::specs::text::Texts::event_text))]
pub fn print_event(alloc: Global, event: &DupEvent) -> Result<Octets, Memory>
    ensures { IfOk result (λ text. text ≡ event_text event.now) }
{
    let text = match event {
        DupEvent::Offer { packet } => {
            return with_hex(alloc, format!(in alloc; "offer ")?, packet.as_slice());
        }
        DupEvent::Carry { leg } => format!(in alloc; "carry {}", leg_word(*leg))?,
        DupEvent::Confirm { leg } => format!(in alloc; "confirm {}", leg_word(*leg))?,
        DupEvent::Fail { leg } => format!(in alloc; "fail {}", leg_word(*leg))?,
        DupEvent::Mend { leg } => format!(in alloc; "mend {}", leg_word(*leg))?,
        DupEvent::SetMode { mode } => format!(in alloc; "mode {}", mode_word(*mode))?,
        DupEvent::Drain => format!(in alloc; "drain")?,
        DupEvent::Ask => format!(in alloc; "ask")?,
    };
    Ok(octets(text))
}

/// The words of a PDU before its octets.
fn pdu_front(alloc: Global, word: &str, leg: Leg, count: u32) -> Result<String, Memory>
    ensures { IfOk result (λ front. string_bytes front ≡ pdu_words word.now leg count) }
{
    let leg = leg_word(leg);
    Ok(format!(in alloc; "{word} L{leg} {count} ")?)
}

/// `WORD LEG C HEX`
fn pdu_text(alloc: Global, word: &str, leg: Leg, count: u32, pdu: &[u8]) -> Result<Octets, Memory>
    ensures { IfOk result (λ text. text ≡ pdu_line word.now leg count pdu.now) }
{
    let front = pdu_front(alloc, word, leg, count)?;
    with_hex(alloc, front, pdu)
}

/// The words of a delivery before its octets.
fn delivery_front(alloc: Global, count: u32) -> Result<String, Memory>
    ensures { IfOk result (λ front. string_bytes front ≡ delivery_words count) }
{
    Ok(format!(in alloc; "deliver {count} ")?)
}

/// `deliver C HEX`
fn packet_text(alloc: Global, count: u32, packet: &[u8]) -> Result<Octets, Memory>
    ensures { IfOk result (λ text. text ≡ packet_line count packet.now) }
{
    let front = delivery_front(alloc, count)?;
    with_hex(alloc, front, packet)
}

/// The text of a line, without its LF.
#[tactic(auto, unfolding(crate::specs::text::Print::line_text))]
pub fn print_line(alloc: Global, line: &DupLine) -> Result<Octets, Memory>
    ensures { IfOk result (λ text. text ≡ line_text line.now) }
{
    let text = match line {
        DupLine::Put { leg, count, pdu } => {
            return pdu_text(alloc, "put", *leg, *count, pdu.as_slice());
        }
        DupLine::Got { leg, count, pdu } => {
            return pdu_text(alloc, "got", *leg, *count, pdu.as_slice());
        }
        DupLine::Deliver { count, packet } => {
            return packet_text(alloc, *count, packet.as_slice());
        }
        DupLine::DropDuplicate => format!(in alloc; "drop Duplicate")?,
        DupLine::Lost { leg, items } => format!(in alloc; "lost L{} {items}", leg_word(*leg))?,
        DupLine::Refused { reason } => format!(in alloc; "refused {}", refusal_word(*reason))?,
        DupLine::Quiet { delivered } => format!(in alloc; "quiet {delivered}")?,
        DupLine::Busy => format!(in alloc; "busy")?,
        DupLine::Outstanding { span, window } => format!(in alloc; "outstanding {span} {window}")?,
    };
    Ok(octets(text))
}

/// The text of an event's own line and of the lines that it prints, each with its LF.
pub fn print_happening(alloc: Global, event: &DupEvent, lines: &[DupLine]) -> Result<Octets, Memory>
    ensures { IfOk result (λ text. text ≡ happens_text event.now ++ print lines.now) }
{
    let mut text = Octets::from_slice(alloc, b"> ")?;
    text.append(print_event(alloc, event)?.as_slice())?;
    text.push(b'\n')?;
    for line in lines {
        text.append(print_line(alloc, line)?.as_slice())?;
        text.push(b'\n')?;
    }
    Ok(text)
}
