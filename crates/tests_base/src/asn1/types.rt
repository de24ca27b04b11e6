//! Types of each form, and what a reader takes, with places counted by hand.

use asn1_syntax::types::*;
use asn1_tokens::{Sign, Word};
use gnb_types::octets::Octets;
use std::alloc::Global;
use std::process::Abort;

/// A type, with how many types stand inside it.
const TYPES: [(&str, usize); 12] = [
    ("BOOLEAN", 0),
    (
        "INTEGER (-9223372036854775808..9223372036854775807, ...)",
        0,
    ),
    ("ENUMERATED {a, b, ..., c}", 0),
    ("BIT STRING (SIZE (1..65535))", 0),
    ("OCTET STRING (SIZE (4, ...))", 0),
    ("PrintableString (SIZE (1..3, ...))", 0),
    ("SEQUENCE {}", 0),
    (
        "SEQUENCE {a Upper OPTIONAL, b SEQUENCE {...}, ..., c BOOLEAN}",
        3,
    ),
    ("CHOICE {a SEQUENCE OF CHOICE {b BOOLEAN, ...}}", 3),
    ("SEQUENCE (SIZE (1..8)) OF Upper", 1),
    ("ProtocolIE-Container {{Set}}", 0),
    ("Protocol-PDU {{Set}}", 0),
];

/// Whether a type up to this place is read, with so many types inside it.
fn is_type(reader: &mut Reader, nodes: &mut Items<Node>, end: usize, inside: usize) -> bool {
    let Ok(whole) = reader.definition(100, nodes) else {
        return false;
    };
    whole.number == inside && nodes.len().checked_sub(1) == Some(inside) && reader.place() == end
}

fn is_read_whole(alloc: Global, text: &[u8], inside: usize) -> bool {
    let mut nodes = Items::new(alloc);
    match Reader::new(alloc, text) {
        Ok(mut reader) => is_type(&mut reader, &mut nodes, text.len(), inside),
        Err(_) => false,
    }
}

#[test]
fn types_are_read_whole(rt: HostRuntime) {
    for &(text, inside) in &TYPES {
        assert!(rt;
            is_read_whole(rt.alloc(), text.as_bytes(), inside),
            "{text}"
        );
    }
}

fn is_upper(reader: &mut Reader, text: &[u8]) -> bool {
    match reader.upper() {
        Ok(name) => name.as_slice() == text,
        Err(_) => false,
    }
}

fn is_lower(reader: &mut Reader, text: &[u8]) -> bool {
    match reader.lower() {
        Ok(name) => name.as_slice() == text,
        Err(_) => false,
    }
}

/// Names of which the second is `b`, and which take one more past them.
fn take_one_more(alloc: Global, names: &mut Extensible<Octets>) -> Result<bool, ReadError> {
    let are_two = has_name(b"b", names.root.as_slice()) && names.can_extend(2);
    names.extend(alloc);
    names.put(Octets::one(alloc, b'c')?)?;
    Ok(are_two && !names.is_full())
}

fn are_names(alloc: Global, reader: &mut Reader) -> bool {
    match reader.names(2) {
        Ok(mut names) => take_one_more(alloc, &mut names) == Ok(true),
        Err(_) => false,
    }
}

/// The word `END` up to this place, and nothing that is a token.
fn is_end(reader: &mut Reader, place: usize) -> bool {
    let fault = ReadError::Fault(Fault {
        place: 28,
        reason: ModuleReason::Token,
    });
    reader.first_word() == Some(Word::End)
        && reader.end() == place
        && reader.word(Word::End).is_ok()
        && reader.unexpected() == fault
}

/// Two names, two numbers, a comma, two names in a list, and the word `END`.
fn are_taken(rt: &impl Abort, alloc: Global, reader: &mut Reader) {
    assert!(rt; is_upper(reader, b"Upper") && is_lower(reader, b"lower"));
    assert!(rt; reader.number() == Ok(7) && reader.natural(0, 8) == Ok(8));
    assert!(rt; reader.sign(Sign::Comma).is_ok());
    assert!(rt; are_names(alloc, reader));
    assert!(rt; is_end(reader, 27));
}

#[test]
fn items_are_taken(rt: HostRuntime) {
    match Reader::new(rt.alloc(), b"Upper lower 7 8 , a, b} END $") {
        Ok(mut reader) => are_taken(&rt, rt.alloc(), &mut reader),
        Err(_) => assert!(rt; false),
    }
}
