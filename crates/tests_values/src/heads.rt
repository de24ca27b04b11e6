//! Flags, marks and heads of ITU-T X.691.

ghost use Rattle.std.specs.Prelude.{◌<◌, length};

use aper_cursor::{Cursor, Unanswered};
use aper_defs::Reason;
use aper_frames::heads::{
    ElementHead, MessageHead, RawError, ask_element_count, ask_element_head, ask_flags, ask_marks,
    ask_message_head, ask_raw, rows_left,
};
use aper_values::value::Value;
use asn1_syntax::assignments::{Criticality, IeRow, Presence};
use asn1_syntax::types::{Component, TypeId};
use gnb_types::bits::Bits;
use gnb_types::octets::Octets;
use std::alloc::Global;

fn component(alloc: Global, optional: bool) -> Component {
    Component {
        name: Octets::new(alloc),
        definition: TypeId { number: 0 },
        optional,
    }
}

/// The first is optional, and so is the third.
fn flags(alloc: Global, octets: &[u8]) -> Result<Bits, Unanswered>
    requires { length octets.now < 100 }
{
    let mut cursor = Cursor::new(alloc, octets);
    let parts = [
        component(alloc, true),
        component(alloc, false),
        component(alloc, true),
    ];
    ask_flags(alloc, &mut cursor, &parts)
}

fn marks(alloc: Global, octets: &[u8]) -> Result<Bits, Unanswered>
    requires { length octets.now < 100 }
{
    let mut cursor = Cursor::new(alloc, octets);
    ask_marks(alloc, &mut cursor, true)
}

/// Whether these bits were found.
fn are_bits(found: Result<Bits, Unanswered>, bits: &[bool]) -> bool {
    match found {
        Ok(found) => found.as_slice() == bits,
        Err(_) => false,
    }
}

#[test]
fn marked(rt: HostRuntime) {
    let alloc = rt.alloc();
    assert!(rt; are_bits(flags(alloc, &[0x40]), &[false, true, true]));
    assert!(rt; are_bits(marks(alloc, &[0x05, 0x40]), &[true, false, true]));
    let none = marks(alloc, &[0x04, 0x00]).err();
    assert!(rt; none == Some(Unanswered::Wrong(Reason::EmptyAdditions)));
}

fn head(alloc: Global, octets: &[u8]) -> Result<MessageHead, Reason>
    requires { length octets.now < 100 }
{
    let mut cursor = Cursor::new(alloc, octets);
    ask_message_head(&mut cursor)
}

#[test]
fn messages(rt: HostRuntime) {
    let known = MessageHead::Known {
        outcome: 1,
        code: 17,
        criticality: 2,
    };
    assert!(rt; head(rt.alloc(), &[0x20, 0x11, 0x80]) == Ok(known));
    assert!(rt; head(rt.alloc(), &[0x20, 0x11, 0xc0]) == Err(Reason::Index));
    assert!(rt; head(rt.alloc(), &[0x84]) == Ok(MessageHead::Past(7)));
}

const ROW: IeRow = IeRow {
    id: 1,
    criticality: Criticality::Reject,
    definition: TypeId { number: 0 },
    presence: Presence::Mandatory,
};

/// The first is mandatory, and so is the third.
const KNOWN: [IeRow; 3] = [
    ROW,
    IeRow {
        id: 2,
        presence: Presence::Optional,
        ..ROW
    },
    IeRow { id: 3, ..ROW },
];

/// Two elements, of which the first has id 1.
fn are_two(cursor: &mut Cursor) -> bool {
    let first = ElementHead {
        id: 1,
        criticality: 1,
    };
    ask_element_count(cursor, &KNOWN) == Ok(2)
        && ask_element_head(cursor, &KNOWN, &KNOWN, 1) == Ok(first)
}

#[test]
fn elements(rt: HostRuntime) {
    let mut cursor = Cursor::new(rt.alloc(), &[0x00, 0x02, 0x00, 0x01, 0x40]);
    assert!(rt; are_two(&mut cursor));
    assert!(rt; rows_left(&KNOWN, &KNOWN, 1).len() == 2);
    assert!(rt; rows_left(&KNOWN, &KNOWN[2..], 9).len() == 1);
    assert!(rt; rows_left(&KNOWN, &KNOWN[2..], 1).is_empty());
}

fn raw(alloc: Global, octets: &[u8]) -> Result<Value, RawError>
    requires { length octets.now < 100 }
{
    let mut cursor = Cursor::new(alloc, octets);
    ask_raw(alloc, &mut cursor)
}

fn is_raw(value: &Value, octets: &[u8]) -> bool {
    match value {
        Value::Raw(found) => found.as_slice() == octets,
        _ => false,
    }
}

fn is_read(found: Result<Value, RawError>, octets: &[u8]) -> bool {
    match found {
        Ok(value) => {
            let is_it = is_raw(&value, octets);
            drop(value);
            is_it
        }
        Err(_) => false,
    }
}

fn is_refused(found: Result<Value, RawError>, error: RawError) -> bool {
    let is_it = match &found {
        Ok(_) => false,
        Err(reason) => *reason == error,
    };
    drop(found);
    is_it
}

#[test]
fn unknown(rt: HostRuntime) {
    let alloc = rt.alloc();
    assert!(rt; is_read(raw(alloc, &[0x02, 0xaa, 0xbb]), &[0xaa, 0xbb]));
    assert!(rt; is_refused(raw(alloc, &[0x00]), RawError::Length(Reason::Length)));
    assert!(rt;
        is_refused(
            raw(alloc, &[0x02, 0xaa]),
            RawError::Octets(Reason::Truncated)
        )
    );
}
