//! What a status says: the place, what was awaited there, and what was read.

use crate::awaited::{Fault, fault_of};
use crate::unsound::say_unsound;
use command_defs::Status;
use scenario_text::script_words::forms::cut;
use std::alloc::Global;
use std::io;

/// The forms of the program's words.
const FORMS: [&str; 11] = [
    "gnb run < SCRIPT",
    "gnb generate N                     N from 1 to 100000",
    "gnb check < MODULE",
    "gnb encode TYPE < VALUES",
    "gnb decode TYPE < VALUES",
    "gnb profile",
    "gnb profile 2",
    "gnb verify < TRANSCRIPT",
    "gnb um N T < SCRIPT                N 12 or 18, T from 1 to 1000",
    "gnb duplicate N Q < SCRIPT         N 12 or 18, Q from 4 to 4096",
    "numbers are plain decimal, without a sign or a leading zero",
];

/// What is known of a call: its words; the line that the status names, where it is kept; and the
/// line that was written before the last one, an empty one where that isn't kept.
#[derive(Clone, Copy)]
pub struct Call<'a> {
    pub words: &'a [String],
    pub has_line: bool,
    pub line: &'a [u8],
    pub written: &'a [u8],
}

/// The longest text that is shown of a word.
const SHOWN: usize = 60;

/// A text as it may be shown: printable ASCII, and not too long.
pub(crate) fn shown(text: &[u8]) -> &str {
    if text.len() > SHOWN {
        return "(a long text)";
    }
    if !text
        .iter()
        .all(|byte| byte.is_ascii_graphic() || *byte == b' ')
    {
        return "(a text with other characters than printable ASCII)";
    }
    std::str::from_utf8(text).unwrap_or("(a text that is not UTF-8)")
}

/// What a reader may have overlooked in a line.
pub(crate) fn hint(line: &[u8]) -> &'static str {
    if line.starts_with(b"\xEF\xBB\xBF") {
        "; the line begins with a byte order mark"
    } else if line.ends_with(b"\r") {
        "; the line ends with a carriage return (CR), and lines end with LF alone"
    } else if cut(line, b'\t').1.is_some() {
        "; the line has a tab, and words stand one blank apart"
    } else if line.starts_with(b" ") || line.ends_with(b" ") {
        "; a blank at the front or the end of a line makes an empty word"
    } else {
        ""
    }
}

/// What was wrong with a word of a line, where the line isn't kept.
fn line_reason(reason: u16) -> &'static str {
    match reason {
        1 => "a word is missing, or is not the awaited one",
        2 => "not a number, or one out of its range",
        3 => "not an even number of hexadecimal digits",
        4 => "a word too many",
        5 => "a name that is not known",
        _ => "not what is awaited there",
    }
}

/// What was wrong with the text of a module.
fn module_reason(reason: u16) -> &'static str {
    match reason {
        1 => "characters that are no lexical item",
        2 => "an item that may not stand there",
        3 => "a name that stands for nothing",
        4 => "a name that is taken",
        5 => "a type that contains itself",
        6 => "a part of ASN.1 that is not read",
        7 => "bounds that are out of range",
        8 => "a type that is nested too deeply",
        9 => "the text ends too early",
        _ => "not what is awaited there",
    }
}

/// What was wrong with a value.
fn value_reason(reason: u16) -> &'static str {
    match reason {
        1 => "a field passes the last octet",
        2 => "a bit of a pad is 1",
        3 => "a number is above its range",
        4 => "a field has a shorter form",
        5 => "an index of nothing",
        6 => "a length that no value has",
        7 => "a character that PrintableString doesn't have",
        8 => "a field passes the end of its open type",
        9 => "octets are left after the last field",
        10 => "a mandatory information element is missing",
        11 => "information elements are out of order",
        12 => "the encoding is too long",
        13 => "no addition is there",
        100 => "not hexadecimal digits",
        101 => "no JSON",
        102 => "not of the form of its type, or a mandatory member is missing",
        103 => "outside the bounds of its type",
        104 => "its encoding would be too long",
        _ => "not what is awaited there",
    }
}

/// The name of a counter.
fn counter(number: u16) -> &'static str {
    match number {
        1 => "control messages",
        2 => "TEIDs of a node",
        3 => "requests between two nodes for a terminal",
        4 => "COUNTs of a bearer",
        5 => "epochs of a terminal",
        6 => "NR-U numbers of a tunnel",
        _ => "a counter",
    }
}

/// The word of this number in a line, counted from 1, and an empty one where there is none.
fn word_of(line: &[u8], number: u64) -> &[u8] {
    let mut left = line;
    for _ in 1..number {
        match cut(left, b' ').1 {
            Some(rest) => left = rest,
            None => return b"",
        }
    }
    cut(left, b' ').0
}

/// What follows after the words before this number in a line.
fn from_word(line: &[u8], number: u64) -> &[u8] {
    let mut left = line;
    for _ in 1..number {
        match cut(left, b' ').1 {
            Some(rest) => left = rest,
            None => return b"",
        }
    }
    left
}

/// The word of the program.
fn command<'a>(call: &Call<'a>) -> &'a str {
    match call.words {
        [word, ..] => word.as_str(),
        [] => "",
    }
}

/// Says which words were given, and the forms.
fn say_usage(rt: &impl Eprint, words: &[String]) -> io::Result<()> {
    match words {
        [] => eprintln!(rt;
            "gnb: no word was given, or one that is not UTF-8; awaited one of these:"
        )?,
        [word] => {
            let word = shown(word.as_bytes());
            eprintln!(rt; "gnb: '{word}' is no form of the program; awaited one of these:")?;
        }
        [word, ..] => {
            let (word, count) = (shown(word.as_bytes()), words.len());
            eprintln!(rt;
                "gnb: '{word}' with {count} words is no form of the program, or a word after it is out of its range; awaited one of these:"
            )?;
        }
    }
    for form in FORMS {
        eprintln!(rt; "gnb:   {form}")?;
    }
    Ok(())
}

/// Says of a line's first wrong word what was awaited in its place.
pub(crate) fn say_fault(rt: &impl Eprint, place: u64, fault: Fault, line: &[u8]) -> io::Result<()> {
    let Fault {
        number,
        awaited,
        word,
        ..
    } = fault;
    let hint = hint(line);
    match word {
        None => eprintln!(rt;
            "gnb: line {place}: awaited {awaited} as word {number}, and the line ends before it{hint}"
        ),
        Some(word) => {
            let word = shown(word);
            eprintln!(rt;
                "gnb: line {place}: awaited {awaited} as word {number}, and it is '{word}'{hint}"
            )
        }
    }
}

/// The headers that a word takes.
fn headers(command: &str) -> &'static str {
    if command == "run" {
        "'module builtin' or 'module text'"
    } else {
        "'module builtin', 'module builtin 2' or 'module text'"
    }
}

/// Says what is wrong with a line of a script, or with the header.
fn say_line(rt: &impl Eprint, call: &Call, place: u64, reason: u16) -> io::Result<()> {
    let words = line_reason(reason);
    let command = command(call);
    if !call.has_line {
        return eprintln!(rt; "gnb: line {place} is refused: {words}");
    }
    let line = call.line;
    let (text, hint) = (shown(line), hint(line));
    if place == 1 && command != "um" && command != "duplicate" {
        let headers = headers(command);
        return eprintln!(rt; "gnb: line 1: awaited {headers}, and it is '{text}'{hint}");
    }
    match fault_of(command, line) {
        Some(fault) if reason != 4 || fault.is_end => { say_fault(rt, place, fault, line) }
        _ if reason == 4 => {
            eprintln!(rt;
                "gnb: line {place}: awaited nothing more after the module, and it is '{text}'{hint}"
            )
        }
        _ => eprintln!(rt; "gnb: line {place} is refused: {words}"),
    }
}

/// Says what is wrong with a module; `module LINE COLUMN REASON` or `differs NAME` was written.
fn say_module(rt: &impl Eprint, call: &Call, place: u64, reason: u16) -> io::Result<()> {
    let written = call.written;
    if place == 0 && reason == 3 {
        return eprintln!(rt; "gnb: the module has no type of this name");
    }
    if reason == 20 {
        let name = shown(word_of(written, 2));
        return eprintln!(rt;
            "gnb: the module is not the profile, version 1: its first difference is at {name}"
        );
    }
    let (column, words) = (shown(word_of(written, 3)), module_reason(reason));
    eprintln!(rt; "gnb: line {place}, column {column}, in the module: {words}")
}

/// Says what is wrong with a value; `wrong BIT REASON PATH` was written.
fn say_value(rt: &impl Eprint, call: &Call, place: u64, reason: u16) -> io::Result<()> {
    let written = call.written;
    let (bit, path, words) = (
        shown(word_of(written, 2)),
        shown(from_word(written, 4)),
        value_reason(reason),
    );
    let hint = hint(call.line);
    match reason {
        102 | 103 => eprintln!(rt; "gnb: line {place}: the value at {path} is refused: {words}"),
        100..=104 => eprintln!(rt; "gnb: line {place} is refused: {words}{hint}"),
        _ => eprintln!(rt; "gnb: line {place} is refused at bit {bit}, at {path}: {words}"),
    }
}

/// Says in plain words what a status other than 0 means.
pub fn explain(rt: &impl Eprint, call: &Call, status: Status) -> io::Result<()> {
    let Status {
        code,
        place,
        reason,
    } = status;
    match code {
        2 => say_usage(rt, call.words),
        3 => say_module(rt, call, place, reason),
        4 => say_line(rt, call, place, reason),
        5 => {
            let said = shown(from_word(call.written, 2));
            eprintln!(rt;
                "gnb: after line {place} more than half a space of COUNTs is outstanding: {said}"
            )
        }
        6 => eprintln!(rt; "gnb: a read failed after {place} bytes"),
        7 => eprintln!(rt; "gnb: a write failed"),
        8 => say_value(rt, call, place, reason),
        9 => eprintln!(rt; "gnb: out of memory"),
        10 => {
            let name = counter(reason);
            eprintln!(rt; "gnb: at line {place} a counter would pass its last value: {name}")
        }
        11 => eprintln!(rt; "gnb: the input is longer than 16,777,216 bytes"),
        12 => say_unsound(rt, call, place, reason),
        _ => Ok(()),
    }
}
