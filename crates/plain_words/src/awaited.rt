//! Which word of an event's line is the first wrong one, and what was awaited in its place.
//!
//! The forms stand here a second time, as texts: what a line is, is decided by the reader of each
//! word of the program, and this only says it in plain words.

use scenario_text::script_words::forms;
use scenario_text::script_words::words::Words;

/// What is awaited after the first word, a word for each place.
const RUN_FORMS: [&[u8]; 23] = [
    b"static uU G P D N C Q",
    b"start",
    b"attach uU G P D N C Q",
    b"offer uU bB DIR HEX",
    b"get NODE/TEID",
    b"air uU bB DIR",
    b"ack uU bB DIR",
    b"give #M",
    b"lose #M",
    b"lose NODE/TEID",
    b"poll uU bB",
    b"pump",
    b"tick",
    b"fail uU",
    b"arrive uU",
    b"return uU",
    b"handover uU G P D",
    b"cancel uU",
    b"release uU",
    b"ask uU bB",
    b"settle",
    b"inject NODE NODE HEX",
    b"inject NODE/TEID HEX",
];

const UM_FORMS: [&[u8]; 6] = [
    b"offer HEX",
    b"give #M",
    b"again #M",
    b"lose #M",
    b"tick",
    b"ask",
];

const DUPLICATE_FORMS: [&[u8]; 8] = [
    b"offer HEX",
    b"carry LEG",
    b"confirm LEG",
    b"fail LEG",
    b"mend LEG",
    b"mode MODE",
    b"drain",
    b"ask",
];

/// A transcript's lines, but for that of an event.
const LINE_FORMS: [&[u8]; 22] = [
    b"put NODE/TEID uU bB DIR COUNT OCTETS",
    b"put RADIO uU bB DIR COUNT OCTETS",
    b"put #M NODE NODE OWNER OCTETS",
    b"got NODE/TEID uU bB DIR COUNT OCTETS",
    b"got RADIO uU bB DIR COUNT OCTETS",
    b"got #M NODE NODE OWNER OCTETS",
    b"lost NODE/TEID NUMBER",
    b"lost RADIO NUMBER",
    b"lost #M NUMBER",
    b"held NODE/TEID REASON",
    b"held RADIO REASON",
    b"deliver uU bB DIR NUMBER OCTETS",
    b"drop NODE REASON",
    b"failed NODE uU REASON",
    b"quiet uU bB NUMBER NUMBER",
    b"busy uU bB",
    b"settled NUMBER",
    b"unsettled NUMBER",
    b"refused REASON",
    b"outstanding uU bB DIR NUMBER NUMBER",
    b"end NUMBER",
    b"stop NUMBER NUMBER NUMBER",
];

/// What is wrong with a line: the number of the word, what was awaited there, the word, where there
/// is one, and whether the line was to end there.
#[derive(Clone, Copy)]
pub struct Fault<'a> {
    pub number: u64,
    pub awaited: &'static str,
    pub word: Option<&'a [u8]>,
    pub is_end: bool,
}

/// The forms of the events that a word of the program reads.
fn forms_of(command: &str) -> &'static [&'static [u8]] {
    match command {
        "run" => &RUN_FORMS,
        "um" => &UM_FORMS,
        "duplicate" => &DUPLICATE_FORMS,
        _ => &[],
    }
}

fn has(word: &[u8], byte: u8) -> bool {
    forms::cut(word, byte).1.is_some()
}

/// What a place of a form awaits, in plain words.
fn meaning(place: &[u8]) -> &'static str {
    match place {
        b"uU" => "a terminal, u1 to u16,",
        b"bB" => "a bearer, b1 to b8,",
        b"G" => "a gNB, A or B,",
        b"P" => "the number of a CU-UP, 1 or 2,",
        b"D" => "the number of a DU, 1 or 2,",
        b"N" => "the bits of an SN, 12 or 18,",
        b"C" => "how many bearers, 1 to 8,",
        b"Q" => "a quota, 4 to 4096,",
        b"DIR" => "a direction, dl or ul,",
        b"HEX" => "an even number of hexadecimal digits",
        b"#M" => "a message, as #1,",
        b"NODE" => "a node, as A.cp, B.up1, A.du2, core or u1,",
        b"NODE/TEID" => "a tunnel, as A.up1/1,",
        b"LEG" => "a leg, 1 or 2,",
        b"MODE" => "a mode, both, 1 or 2,",
        b"RADIO" => "a radio, as r/u1/b1/dl/1,",
        b"COUNT" => "a COUNT, or -,",
        b"OWNER" => "a terminal, u0 to u16,",
        b"OCTETS" => "an even number of hexadecimal digits in upper case",
        b"NUMBER" => "a number",
        b"REASON" => "a reason",
        _ => "another word",
    }
}

/// Whether a word may stand at a place.
fn fits(place: &[u8], word: &[u8]) -> bool {
    match place {
        b"uU" => forms::ue(word).is_some(),
        b"bB" => forms::bearer(word).is_some(),
        b"G" => forms::gnb(word).is_some(),
        b"P" | b"D" | b"LEG" => forms::number(word, 1, 2).is_some(),
        b"N" => forms::sn_bits(word).is_some(),
        b"C" => forms::number(word, 1, 8).is_some(),
        b"Q" => forms::number(word, 4, 4096).is_some(),
        b"DIR" => forms::dir(word).is_some(),
        b"HEX" => is_hex(word),
        b"#M" => forms::message(word).is_some(),
        b"NODE" => forms::node(word).is_some(),
        b"NODE/TEID" => forms::tunnel(word).is_ok(),
        b"MODE" => word == b"both".as_slice() || forms::number(word, 1, 2).is_some(),
        b"RADIO" => word.starts_with(b"r/"),
        b"COUNT" => word == b"-".as_slice() || is_number(word),
        b"OWNER" => word == b"u0".as_slice() || forms::ue(word).is_some(),
        b"OCTETS" => is_hex(word) && !word.iter().any(|byte| byte.is_ascii_lowercase()),
        b"NUMBER" => is_number(word),
        b"REASON" => !word.is_empty(),
        _ => word == place,
    }
}

/// Whether a word is an even number of hexadecimal digits, at least two.
fn is_hex(word: &[u8]) -> bool {
    !word.is_empty() && word.len() % 2 == 0 && word.iter().all(|byte| byte.is_ascii_hexdigit())
}

/// Whether a word is decimal digits alone.
fn is_number(word: &[u8]) -> bool {
    !word.is_empty() && word.iter().all(|byte| byte.is_ascii_digit())
}

/// Whether a link or message is of the kind that a form has: a radio, a message, or else a tunnel.
fn is_of_kind(place: &[u8], word: &[u8]) -> bool {
    if word.starts_with(b"#") {
        place == b"#M".as_slice()
    } else if word.starts_with(b"r/") {
        place == b"RADIO".as_slice()
    } else {
        place == b"NODE/TEID".as_slice()
    }
}

/// Whether lines that begin with this word differ by the kind of the second.
fn has_kinds(word: &[u8]) -> bool {
    matches!(word, b"put" | b"got" | b"lost" | b"held")
}

/// Whether a line is to be read in this form: its first word, and where several forms begin so the second one's kind.
fn is_form(form: &[u8], line: &[u8]) -> bool {
    let (keyword, places) = forms::cut(form, b' ');
    let (word, left) = forms::cut(line, b' ');
    let second = match left {
        Some(left) => forms::cut(left, b' ').0,
        None => b"".as_slice(),
    };
    let first_place = match places {
        Some(places) => forms::cut(places, b' ').0,
        None => b"".as_slice(),
    };
    if keyword != word {
        false
    } else if word == b"lose".as_slice() {
        second.starts_with(b"#") == (first_place == b"#M".as_slice())
    } else if word == b"inject".as_slice() {
        has(second, b'/') == has(first_place, b'/')
    } else if has_kinds(word) {
        is_of_kind(first_place, second)
    } else {
        true
    }
}

/// The first wrong word of a line in a form, if one is wrong.
fn fault_in<'a>(form: &[u8], line: &'a [u8]) -> Option<Fault<'a>> {
    let (mut places, mut words) = (Words::of(form), Words::of(line));
    for number in 1..u64::MAX {
        match (places.next(), words.next()) {
            (Ok((place, more_places)), Ok((word, more_words))) => {
                if !fits(place, word) {
                    return Some(Fault {
                        number,
                        awaited: meaning(place),
                        word: Some(word),
                        is_end: false,
                    });
                }
                places = more_places;
                words = more_words;
            }
            (Ok((place, _)), Err(_)) => return Some(Fault {
                number,
                awaited: meaning(place),
                word: None,
                is_end: false,
            }),
            (Err(_), Ok((word, _))) => return Some(Fault {
                number,
                awaited: "the end of the line",
                word: Some(word),
                is_end: true,
            }),
            (Err(_), Err(_)) => return None,
        }
    }
    None
}

/// The first wrong word of an event's line, as a word of the program reads it; none where that word
/// reads no events.
pub fn fault_of<'a>(command: &str, line: &'a [u8]) -> Option<Fault<'a>> {
    let known = forms_of(command);
    if known.is_empty() {
        return None;
    }
    for form in known {
        if is_form(form, line) {
            return fault_in(form, line);
        }
    }
    let (word, _) = forms::cut(line, b' ');
    Some(Fault {
        number: 1,
        awaited: "an event",
        word: Some(word),
        is_end: false,
    })
}

/// The first wrong word of a line of a transcript; none where each word may stand at its place.
pub fn fault_in_transcript(line: &[u8]) -> Option<Fault<'_>> {
    if let Some(event) = line.strip_prefix(b"> ") {
        let Fault {
            number,
            awaited,
            word,
            is_end,
        } = fault_of("run", event)?;
        return Some(Fault {
            number: number.saturating_add(1),
            awaited,
            word,
            is_end,
        });
    }
    for form in LINE_FORMS {
        if is_form(form, line) {
            return fault_in(form, line);
        }
    }
    let (word, _) = forms::cut(line, b' ');
    Some(Fault {
        number: 1,
        awaited: "a line of a transcript, as '> tick' or 'end 0',",
        word: Some(word),
        is_end: false,
    })
}
