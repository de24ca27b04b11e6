//! Numbers, indices and counts of ITU-T X.691.

ghost use Rattle.std.specs.Prelude.{◌<◌, length};

use aper_cursor::asking::{ask_count, ask_index, ask_integer, ask_number};
use aper_cursor::{Cursor, Range, Role};
use aper_defs::Reason;
use asn1_syntax::types::Size;
use std::alloc::Global;

fn number(alloc: Global, octets: &[u8], span: u64) -> Result<u64, Reason>
    requires { length octets.now < 100 }
{
    let mut cursor = Cursor::new(alloc, octets);
    ask_number(&mut cursor, Role::Value, span)
}

/// A number from -5 to 10, or past them.
fn integer(alloc: Global, octets: &[u8]) -> Result<i128, Reason>
    requires { length octets.now < 100 }
{
    let mut cursor = Cursor::new(alloc, octets);
    let range = Range { low: -5, high: 10 };
    ask_integer(&mut cursor, &range, true)
}

/// An index among three, or past them.
fn index(alloc: Global, octets: &[u8]) -> Result<u64, Reason>
    requires { length octets.now < 100 }
{
    let mut cursor = Cursor::new(alloc, octets);
    ask_index(&mut cursor, 3, true)
}

/// Two to four members, or another number.
fn count(alloc: Global, octets: &[u8]) -> Result<u64, Reason>
    requires { length octets.now < 100 }
{
    let mut cursor = Cursor::new(alloc, octets);
    let size = Size {
        low: 2,
        high: 4,
        extensible: true,
    };
    ask_count(&mut cursor, Some(size))
}

/// Octets, the greatest number, and the number or why there is none.
const NUMBERS: [(&[u8], u64, Result<u64, Reason>); 8] = [
    (&[], 0, Ok(0)),
    (&[0x80], 1, Ok(1)),
    (&[0xfe], 254, Ok(254)),
    (&[0xff], 254, Err(Reason::Range)),
    (&[0xff], 255, Ok(255)),
    (&[0x01, 0x00], 65535, Ok(256)),
    (&[0x80, 0x01, 0x00, 0x00], 65536, Ok(65536)),
    (&[0x40, 0x00, 0x05], 65536, Err(Reason::NotMinimal)),
];

fn is_number(alloc: Global, octets: &[u8], span: u64, answer: Result<u64, Reason>) -> bool {
    octets.len() < 100 && number(alloc, octets, span) == answer
}

#[test]
fn numbers(rt: HostRuntime) {
    for &(octets, span, answer) in &NUMBERS {
        assert!(rt; is_number(rt.alloc(), octets, span, answer), "{octets:?}");
    }
}

#[test]
fn integers_past_the_root(rt: HostRuntime) {
    let alloc = rt.alloc();
    assert!(rt; integer(alloc, &[0x78]) == Ok(10));
    assert!(rt; integer(alloc, &[0x80, 0x01, 0x0b]) == Ok(11));
    assert!(rt; integer(alloc, &[0x80, 0x01, 0xfa]) == Ok(-6));
    assert!(rt; integer(alloc, &[0x80, 0x01, 0x0a]) == Err(Reason::NotMinimal));
}

#[test]
fn indices_and_counts_past_the_root(rt: HostRuntime) {
    let alloc = rt.alloc();
    assert!(rt; index(alloc, &[0x40]) == Ok(2));
    assert!(rt; index(alloc, &[0x60]) == Err(Reason::Index));
    assert!(rt; index(alloc, &[0x80]) == Ok(3));
    assert!(rt; count(alloc, &[0x20]) == Ok(3));
    assert!(rt; count(alloc, &[0x80, 0x03]) == Err(Reason::NotMinimal));
    assert!(rt; count(alloc, &[0x80, 0x05]) == Ok(5));
}
