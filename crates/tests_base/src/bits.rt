//! Bits of examples of ITU-T X.691, annex A.2, and each public call once.

use bits_core::reader::{BitError, BitReader};
use bits_core::writer::BitWriter;
use gnb_types::octets::{Memory, Octets};
use std::alloc::Global;

/// Puts fields, each a width and a value, with a pad where the width is 0.
fn put_fields(alloc: Global, fields: &[(u32, u64)]) -> Result<Option<Octets>, Memory> {
    let mut writer = BitWriter::new(alloc);
    for &(width, value) in fields {
        if width == 0 {
            writer.align()?;
        } else if width >= 64 || value >= 1 << width {
            return Ok(None);
        } else {
            writer.put_bits(value, width)?;
        }
    }
    Ok(Some(writer.finish()))
}

/// Whether these fields are taken from octets, and no more.
fn takes_fields(octets: &[u8], fields: &[(u32, u64)]) -> bool {
    if octets.len() >= 100 {
        return false;
    }
    let mut reader = BitReader::new(octets);
    for &(width, value) in fields {
        let taken = if width == 0 {
            reader.skip_pad().is_ok()
        } else {
            width < 64 && reader.take_bits(width) == Ok(value)
        };
        if !taken {
            return false;
        }
    }
    reader.place() == 8 * octets.len() as u64 && reader.take_bits(1) == Err(BitError::Short)
}

/// Whether fields are put as these octets, and taken from them again.
fn both_ways(alloc: Global, fields: &[(u32, u64)], octets: &[u8]) -> Result<bool, Memory> {
    match put_fields(alloc, fields)? {
        Some(put) => Ok(put.as_slice() == octets && takes_fields(octets, fields)),
        None => Ok(false),
    }
}

/// The personnel record as far as 'John P Smith': a flag, lengths in 6 bits, and characters of 8 or 6 bits.
const ALIGNED: [(u32, u64); 15] = [
    (1, 1),
    (6, 3),
    (0, 0),
    (8, 0x4a),
    (8, 0x6f),
    (8, 0x68),
    (8, 0x6e),
    (8, 0x50),
    (6, 4),
    (0, 0),
    (8, 0x53),
    (8, 0x6d),
    (8, 0x69),
    (8, 0x74),
    (8, 0x68),
];

const UNALIGNED: [(u32, u64); 14] = [
    (1, 1),
    (6, 3),
    (6, 11),
    (6, 42),
    (6, 35),
    (6, 41),
    (6, 17),
    (6, 4),
    (6, 20),
    (6, 40),
    (6, 36),
    (6, 47),
    (6, 35),
    (0, 0),
];

#[test]
fn personnel_record(rt: HostRuntime) {
    let alloc = rt.alloc();
    assert!(rt; both_ways(alloc, &ALIGNED, b"\x86John\x50\x10Smith") == Ok(true));
    let octets = [0x86, 0x5d, 0x51, 0xd2, 0x88, 0x8a, 0x51, 0x25, 0xf1, 0x80];
    assert!(rt; both_ways(alloc, &UNALIGNED, &octets) == Ok(true));
}

/// Four bits, the widest field, no bits, and one bit.
fn widest_field(alloc: Global) -> Result<Octets, Memory> {
    let mut writer = BitWriter::new(alloc);
    writer.put_bits(0xf, 4)?;
    writer.put_bits(0x0123_4567_89ab_cdef, 64)?;
    writer.put_bits(0, 0)?;
    writer.put_bits(1, 1)?;
    Ok(writer.finish())
}

fn has_put(put: Result<Octets, Memory>, octets: &[u8]) -> bool {
    match put {
        Ok(put) => put.as_slice() == octets,
        Err(_) => false,
    }
}

/// Whether these are taken again, and what else is asked for is refused.
fn takes_widest_field(octets: &[u8; 9]) -> bool {
    let mut reader = BitReader::new(octets);
    reader.take_bits(4) == Ok(0xf)
        && reader.take_bits(64) == Ok(0x0123_4567_89ab_cdef)
        && reader.skip_pad() == Err(BitError::Padding)
        && reader.take_bits(5) == Err(BitError::Short)
        && reader.place() == 68
        && reader.take_bits(1) == Ok(1)
        && reader.skip_pad().is_ok()
        && reader.place() == 72
}

#[test]
fn widest_field_and_refusals(rt: HostRuntime) {
    let octets = [0xf0, 0x12, 0x34, 0x56, 0x78, 0x9a, 0xbc, 0xde, 0xf8];
    assert!(rt; takes_widest_field(&octets));
    assert!(rt; has_put(widest_field(rt.alloc()), &octets));
}

/// Octets put as a slice, then three bits.
fn per_and_bits(alloc: Global) -> Result<Octets, Memory> {
    let mut writer = BitWriter::new(alloc);
    writer.put_octets(b"per")?;
    writer.put_bits(5, 3)?;
    Ok(writer.finish())
}

/// Octets taken from each of these places: the octet's number, how many, and which.
const TAKEN: [(u64, usize, Option<&[u8]>); 6] = [
    (0, 3, Some(b"per")),
    (1, 2, Some(b"er")),
    (3, 1, Some(b"\xa0")),
    (3, 2, None),
    (4, 0, Some(b"")),
    (4, 1, None),
];

/// Whether so many octets are taken from a place, if they are there, and how far the reader is then.
fn takes_octets(octets: &[u8; 4], start: u64, count: usize, found: Option<&[u8]>) -> bool {
    if start > 4 || count > 4 {
        return false;
    }
    let mut reader = BitReader::at(octets, 8 * start);
    let taken = if found.is_some() { count } else { 0 };
    reader.take_octets(count).ok() == found && reader.place() == 8 * (start + taken as u64)
}

#[test]
fn whole_octets(rt: HostRuntime) {
    for &(start, count, found) in &TAKEN {
        assert!(rt;
            takes_octets(b"per\xa0", start, count, found),
            "{count} at {start}"
        );
    }
    assert!(rt; has_put(per_and_bits(rt.alloc()), b"per\xa0"));
}
