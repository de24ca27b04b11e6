//! Words by hand: what each means, and how a line gives them.

use gnb_types::names::{Gnb, NodeId};
use scenario_text::script_words::forms::{message, node, number, tunnel};
use scenario_text::script_words::reason::TextReason;
use scenario_text::script_words::words::Words;

/// Words, and the number from 0 to 65535 that they are.
const NUMBERS: [(&str, Option<u32>); 9] = [
    ("0", Some(0)),
    ("7", Some(7)),
    ("65535", Some(65535)),
    ("65536", None),
    ("", None),
    ("07", None),
    ("+7", None),
    ("7 ", None),
    ("99999999999999999999", None),
];

#[test]
fn numbers(rt: HostRuntime) {
    for &(word, value) in &NUMBERS {
        assert!(rt; number(word.as_bytes(), 0, 65535) == value, "{word}");
    }
}

#[test]
fn names(rt: HostRuntime) {
    assert!(rt; node(b"B.up2") == Some(NodeId::CuUp(Gnb::B, 2)));
    assert!(rt; node(b"u16") == Some(NodeId::Ue(16)));
    assert!(rt; node(b"A.up3").is_none());
    assert!(rt; message(b"#4294967295") == Some(u32::MAX));
    assert!(rt; message(b"#0").is_none());
    assert!(rt; tunnel(b"core/7") == Ok((NodeId::Core, 7)));
    assert!(rt; tunnel(b"core") == Err(TextReason::Number));
    assert!(rt; tunnel(b"cor/0") == Err(TextReason::Name));
}

#[test]
fn words_of_a_line(rt: HostRuntime) {
    let words = Words::of(b"poll  u1");
    let after = words.fixed(b"poll", TextReason::Word);
    assert!(rt; after.is_ok());
    if let Ok(words) = after {
        assert!(rt; words.ue().is_err());
        assert!(rt; words.end().is_err());
    }
}
