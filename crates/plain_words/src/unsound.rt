//! Which rule a text breaks that is no sound transcript, in plain words on standard error.

use crate::awaited::fault_in_transcript;
use crate::statuses::{Call, hint, say_fault, shown};
use std::io;

/// What holds of a line of a sound transcript, by the number of the rule.
fn rule(number: u16) -> &'static str {
    match number {
        1 =>
            "the first line is that of an event, 'end' or 'stop'; nothing follows 'end' and 'stop', 'stop' alone follows 'outstanding', 'end' has the number of events, and hexadecimal digits are in upper case",
        2 =>
            "what is got or lost stands on its link, the oldest first, and control messages are numbered 1, 2, 3 and so on",
        3 =>
            "the octets of an item are laid out as its link has it, and an accepted event set its bearer before",
        4 => "a packet, and the number in its octets, are those of the COUNT beside them",
        5 =>
            "packets are delivered by COUNT, from 0 on, and a quiet bearer has delivered all that was offered",
        6 =>
            "a packet that is put was offered before, and one that is delivered was got by its receiver before",
        7 => "the octets of a control message are the one spelling of a message of the profile",
        8 => "the text ends with 'end' or 'stop'",
        _ => "no rule is broken",
    }
}

/// Says of a line that is none of a transcript, or can't stand there, what was awaited.
fn say_form(rt: &impl Eprint, line: &[u8], place: u64) -> io::Result<()> {
    let (text, hint, rule) = (shown(line), hint(line), rule(1));
    match fault_in_transcript(line) {
        Some(fault) => say_fault(rt, place, fault, line),
        None => eprintln!(rt;
            "gnb: line {place} can't stand there: awaited that {rule}, and it is '{text}'{hint}"
        ),
    }
}

/// Says which rule is broken at a line, and what was awaited there.
pub fn say_unsound(rt: &impl Eprint, call: &Call, place: u64, reason: u16) -> io::Result<()> {
    let rule = rule(reason);
    if reason == 8 {
        return eprintln!(rt; "gnb: there is no line {place}: awaited that {rule}");
    }
    if !call.has_line {
        return eprintln!(rt; "gnb: line {place} breaks rule {reason}: awaited that {rule}");
    }
    if reason == 1 {
        return say_form(rt, call.line, place);
    }
    let (text, hint) = (shown(call.line), hint(call.line));
    eprintln!(rt;
        "gnb: line {place} breaks rule {reason}: awaited that {rule}, and it is '{text}'{hint}"
    )
}
