//! Octets of packets on the links of a worked network, and refusals written by hand.

use gnb_types::bits::Bits;
use gnb_types::hex::hex_bytes;
use gnb_types::names::SnBits;
use gnb_types::octets::Memory;
use pdcp::{PACKET_LIMIT, Pdu, PduError, near, read_pdu, write_pdu, write_report};
use std::alloc::Global;

/// A packet on a link, the octets of GTP-U and NR-U before the data PDU in it, and what the PDU says: the length of its number, the
/// COUNT, the number, and the packet.
type DataPdu = (&'static str, usize, SnBits, u32, u32, &'static str);

#[rattlefmt::skip]
const DATA_PDUS: [DataPdu; 10] = [
    ("800045", 0, SnBits::Len12, 0, 0, "45"),
    ("34FF000F00000001000000840200000000000000800045", 20, SnBits::Len12, 0, 0, "45"),
    ("30FF000300000002800045", 8, SnBits::Len12, 0, 0, "45"),
    ("34FF000F00000001000000840200000000010000800001", 20, SnBits::Len12, 0, 0, "01"),
    ("34FF000F00000001000000840200010000020000800001", 20, SnBits::Len12, 0, 0, "01"),
    ("34FF000F00000001000000840200000000030000800102", 20, SnBits::Len12, 1, 1, "02"),
    ("34FF000F00000001000000840200010000030000800102", 20, SnBits::Len12, 1, 1, "02"),
    ("8FFF45", 0, SnBits::Len12, 4095, 4095, "45"),
    ("800045", 0, SnBits::Len12, 4096, 0, "45"),
    ("34FF00100000000100000084020000000000000080000045", 20, SnBits::Len18, 0, 0, "45"),
];

/// Whether a packet is written with this COUNT as these octets.
fn is_written(alloc: Global, sn: SnBits, count: u32, packet: &[u8], pdu: &[u8]) -> bool {
    if packet.is_empty() || packet.len() > PACKET_LIMIT {
        return false;
    }
    match write_pdu(alloc, sn, count, packet) {
        Ok(written) => written.as_slice() == pdu,
        Err(_) => false,
    }
}

/// Whether this is read and written at the end of these octets.
fn goes_both_ways(alloc: Global, octets: &[u8], row: DataPdu, packet: &[u8]) -> bool {
    let (_, before, sn, count, number, _) = row;
    let Some(pdu) = octets.get(before..) else {
        return false;
    };
    let read = Pdu::Packet { sn: number, packet };
    read_pdu(sn, pdu) == Ok(read) && is_written(alloc, sn, count, packet, pdu)
}

fn is_data_pdu(alloc: Global, row: DataPdu) -> bool {
    let Ok(octets) = hex_bytes(alloc, row.0.as_bytes()) else {
        return false;
    };
    let Ok(packet) = hex_bytes(alloc, row.5.as_bytes()) else {
        return false;
    };
    goes_both_ways(alloc, octets.as_slice(), row, packet.as_slice())
}

#[test]
fn data_pdus(rt: HostRuntime) {
    for &row in &DATA_PDUS {
        assert!(rt; is_data_pdu(rt.alloc(), row), "{}", row.0);
    }
}

/// Whether a report with this bitmap is read from these octets.
fn is_report(pdu: &[u8], fmc: u32, bitmap: &[u8]) -> bool {
    read_pdu(SnBits::Len12, pdu) == Ok(Pdu::Report { fmc, bits: bitmap })
}

/// Bits, pushed one by one.
fn pushed(alloc: Global, bits: &[bool]) -> Result<Bits, Memory> {
    let mut pushed = Bits::new(alloc);
    for bit in bits {
        pushed.push(*bit)?;
    }
    Ok(pushed)
}

/// Whether bits are the same list, pushed one by one and all at once.
fn are_pushed(alloc: Global, bits: &[bool]) -> Result<bool, Memory> {
    let pushed = pushed(alloc, bits)?;
    Ok(pushed == Bits::from_slice(alloc, bits)?)
}

/// Whether the report is written as these octets.
fn writes_report(alloc: Global, fmc: u32, bits: &[bool], pdu: &[u8]) -> Result<bool, Memory> {
    let bits = Bits::from_slice(alloc, bits)?;
    let written = write_report(alloc, fmc, &bits)?;
    Ok(written.as_slice() == pdu)
}

#[test]
fn status_reports(rt: HostRuntime) {
    let alloc = rt.alloc();
    // of a receiver that awaits COUNT 5 and stored 7 and 8, and of one that awaits 0 and stored nothing
    let pdu = &[0, 0, 0, 0, 5, 0x60];
    let bits = &[false, true, true];
    assert!(rt; is_report(pdu, 5, &[0x60]));
    assert!(rt; are_pushed(alloc, bits) == Ok(true));
    assert!(rt; writes_report(alloc, 5, bits, pdu) == Ok(true));
    assert!(rt; is_report(&[0, 0, 0, 0, 0], 0, &[]));
    assert!(rt; are_pushed(alloc, &[]) == Ok(true));
    assert!(rt; writes_report(alloc, 0, &[], &[0, 0, 0, 0, 0]) == Ok(true));
}

#[rattlefmt::skip]
const REFUSALS: [(SnBits, &[u8], PduError); 8] = [
    (SnBits::Len12, &[], PduError::Truncated),
    (SnBits::Len12, &[0x80, 0], PduError::Truncated),
    (SnBits::Len18, &[0x80, 0, 0], PduError::Truncated),
    (SnBits::Len12, &[0, 0, 0, 0], PduError::Truncated),
    (SnBits::Len18, &[0x10, 0, 0, 0], PduError::Truncated),
    (SnBits::Len12, &[0x10, 0, 0, 0, 0], PduError::ControlKind),
    (SnBits::Len18, &[0x40, 0, 0, 0, 5, 0x60], PduError::ControlKind),
    (SnBits::Len18, &[0x7f, 0, 0, 0, 5, 0x60], PduError::ControlKind),
];

fn is_refused(sn: SnBits, octets: &[u8], reason: PduError) -> bool {
    read_pdu(sn, octets) == Err(reason)
}

#[test]
fn refused_pdus(rt: HostRuntime) {
    for &(sn, octets, reason) in &REFUSALS {
        assert!(rt; is_refused(sn, octets, reason), "{octets:?}");
    }
}

/// The length of a number, the COUNT that is next, the number, and the COUNT that it stands for.
const COUNTS: [(SnBits, u32, u32, Option<u32>); 14] = [
    (SnBits::Len12, 4095, 4095, Some(4095)),
    (SnBits::Len12, 4095, 0, Some(4096)),
    (SnBits::Len12, 4096, 4095, Some(4095)),
    (SnBits::Len12, 4096, 4096, Some(4096)),
    (SnBits::Len12, 0, 2047, Some(2047)),
    (SnBits::Len12, 0, 2048, None),
    (SnBits::Len12, 2048, 0, Some(0)),
    (SnBits::Len12, 2049, 0, Some(4096)),
    (SnBits::Len18, 262_143, 0, Some(262_144)),
    (SnBits::Len18, 131_072, 0, Some(0)),
    (SnBits::Len18, 131_073, 0, Some(262_144)),
    (SnBits::Len12, u32::MAX - 1, 4094, Some(u32::MAX - 1)),
    (SnBits::Len12, u32::MAX - 1, 4095, None),
    (SnBits::Len12, u32::MAX, 0, None),
];

#[test]
fn counts_of_numbers(rt: HostRuntime) {
    for &(sn, deliv, number, count) in &COUNTS {
        assert!(rt; near(sn, deliv, number) == count, "{number} near {deliv}");
    }
}
