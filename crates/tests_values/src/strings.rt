//! Strings of ITU-T X.691.

ghost use Rattle.std.specs.Prelude.{◌<◌, length};
ghost use Rattle.aper_defs.specs.Bounds.{IsSizeBounded};

use aper_cursor::strings::{Content, ask_string};
use aper_cursor::{Cursor, Unanswered};
use aper_defs::Reason;
use asn1_syntax::types::Size;
use gnb_types::octets::Octets;
use std::alloc::Global;

fn string(
    alloc: Global,
    octets: &[u8],
    content: Content,
    size: Option<Size>,
) -> Result<Octets, Unanswered>
    requires short { length octets.now < 100_000 }
    requires bounded { IsSizeBounded size }
{
    let mut cursor = Cursor::new(alloc, octets);
    ask_string(alloc, &mut cursor, content, size)
}

/// The size is 0 where there is none.
fn is_string(
    alloc: Global,
    octets: &[u8],
    content: Content,
    size: (u8, u8),
    units: Result<&[u8], Reason>,
) -> bool
    requires { length octets.now < 100_000 }
{
    let (low, high) = size;
    let bounds = if high == 0 || low > high {
        None
    } else {
        Some(Size {
            low: u32::from(low),
            high: u32::from(high),
            extensible: low > 1,
        })
    };
    match string(alloc, octets, content, bounds) {
        Ok(found) => units == Ok(found.as_slice()),
        Err(Unanswered::Wrong(reason)) => units == Err(reason),
        Err(Unanswered::Memory) => false,
    }
}

/// A string's octets, its content, its size, and its units or why there are none.
type Row = (
    &'static [u8],
    Content,
    (u8, u8),
    Result<&'static [u8], Reason>,
);

const STRINGS: [Row; 12] = [
    (&[0x80, 0xa0], Content::Bits, (1, 4), Ok(&[1, 0, 1])),
    (&[0x81, 0xa0], Content::Bits, (1, 4), Err(Reason::Padding)),
    (&[0x03, 0xa0], Content::Bits, (0, 0), Ok(&[1, 0, 1])),
    (&[0x80, 0x03, 0xa0], Content::Bits, (2, 2), Ok(&[1, 0, 1])),
    (&[0x00], Content::Octets, (0, 0), Ok(&[])),
    (
        &[0x80, 0x03, 1, 2, 3],
        Content::Octets,
        (2, 2),
        Ok(&[1, 2, 3]),
    ),
    (
        &[0x80, 0x02, 1, 2],
        Content::Octets,
        (2, 2),
        Err(Reason::NotMinimal),
    ),
    (
        &[0x80, 0x7f],
        Content::Octets,
        (0, 0),
        Err(Reason::NotMinimal),
    ),
    (&[0xc5], Content::Octets, (0, 0), Err(Reason::Length)),
    (
        b"\x0bit's 1+1=2?",
        Content::Characters,
        (0, 0),
        Ok(b"it's 1+1=2?"),
    ),
    (
        b"\x03A",
        Content::Characters,
        (0, 0),
        Err(Reason::Truncated),
    ),
    (
        b"\x02A\xff",
        Content::Characters,
        (0, 0),
        Err(Reason::Character),
    ),
];

fn is_row(alloc: Global, row: Row) -> bool {
    let (octets, content, size, units) = row;
    octets.len() < 100_000 && is_string(alloc, octets, content, size, units)
}

#[test]
fn strings(rt: HostRuntime) {
    for &row in &STRINGS {
        assert!(rt; is_row(rt.alloc(), row), "{:?}", row.0);
    }
}

/// A part of 16,384 octets of zeros, and what comes after it.
fn parts(alloc: Global, next: u8) -> Result<Octets, Unanswered> {
    let mut octets = Vec::from_elem(alloc, 0u8, 16_386)?;
    octets[0] = 0xc1;
    octets[16_385] = next;
    string(alloc, octets.as_slice(), Content::Octets, None)
}

/// Whether there is a string of so many octets.
fn has_length(found: Result<Octets, Unanswered>, length: usize) -> bool {
    match found {
        Ok(octets) => octets.len() == length,
        Err(_) => false,
    }
}

/// Whether there is none for this reason.
fn is_wrong(found: Result<Octets, Unanswered>, reason: Reason) -> bool {
    match found {
        Ok(_) => false,
        Err(error) => error == Unanswered::Wrong(reason),
    }
}

#[test]
fn more_parts(rt: HostRuntime) {
    assert!(rt; has_length(parts(rt.alloc(), 0), 16_384));
    assert!(rt; is_wrong(parts(rt.alloc(), 0xc1), Reason::NotMinimal));
}
