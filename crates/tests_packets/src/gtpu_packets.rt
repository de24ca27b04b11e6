//! Packets written out by hand: those that stand on the links of this program, some with further fields, and each refusal.

use gtpu::*;
use std::alloc::Global;
use std::process::Abort;

/// The octets of a packet, its kind, its TEID, the type of its first extension header, its extension headers, and its payload.
type Row = (&'static [u8], Kind, u32, u8, &'static [u8], &'static [u8]);

/// A packet with these extension headers and no other optional field.
fn packet<'a>(kind: Kind, teid: u32, first: u8, chain: &'a [u8], payload: &'a [u8]) -> Packet<'a> {
    Packet {
        kind,
        teid,
        seq: None,
        npdu: None,
        first,
        chain,
        payload,
    }
}

/// Whether a packet is read from its octets and written as them.
fn goes_both_ways(alloc: Global, octets: &[u8], packet: Packet) -> bool {
    let Ok(read) = decode(octets) else {
        return false;
    };
    if read != packet {
        return false;
    }
    match encode(alloc, &read) {
        Ok(written) => written.as_slice() == octets,
        Err(_) => false,
    }
}

/// Each packet is read from its octets and written as them.
fn go_both_ways(rt: &impl Abort, alloc: Global, rows: &[Row]) {
    for &(octets, kind, teid, first, chain, payload) in rows {
        let packet = packet(kind, teid, first, chain, payload);
        assert!(rt; goes_both_ways(alloc, octets, packet), "{octets:?}");
    }
}

/// A packet on N3 and one to a CU-UP, packets with numbers of 12 and of 18 bits, a poll, two statuses, two forwarded packets, and the
/// end.
#[rattlefmt::skip]
const PACKETS: [Row; 10] = [
    (b"\x30\xFF\x00\x01\x00\x00\x00\x01\x45", Kind::GPdu, 1, 0, b"", b"\x45"),
    (b"\x30\xFF\x00\x03\x00\x00\x00\x02\x80\x00\x45", Kind::GPdu, 2, 0, b"", b"\x80\x00\x45"),
    (
        b"\x34\xFF\x00\x0F\x00\x00\x00\x01\x00\x00\x00\x84\x02\x00\x00\x00\x00\x01\x00\x00\x80\x00\x01",
        Kind::GPdu,
        1,
        0x84,
        b"\x02\x00\x00\x00\x00\x01\x00\x00",
        b"\x80\x00\x01",
    ),
    (
        b"\x34\xFF\x00\x10\x00\x00\x00\x01\x00\x00\x00\x84\x02\x00\x00\x00\x00\x00\x00\x00\x80\x00\x00\x45",
        Kind::GPdu,
        1,
        0x84,
        b"\x02\x00\x00\x00\x00\x00\x00\x00",
        b"\x80\x00\x00\x45",
    ),
    (b"\x34\xFF\x00\x0C\x00\x00\x00\x01\x00\x00\x00\x84\x02\x01\x00\x00\x00\x01\x00\x00", Kind::GPdu, 1, 0x84, b"\x02\x01\x00\x00\x00\x01\x00\x00", b""),
    (
        b"\x34\xFF\x00\x10\x00\x00\x00\x02\x00\x00\x00\x84\x03\x14\x00\x00\x01\x00\x00\x00\x00\x00\x00\x00",
        Kind::GPdu,
        2,
        0x84,
        b"\x03\x14\x00\x00\x01\x00\x00\x00\x00\x00\x00\x00",
        b"",
    ),
    (
        b"\x34\xFF\x00\x14\x00\x00\x00\x02\x00\x00\x00\x84\x04\x11\x00\x00\x01\x00\x00\x01\x00\x00\x00\x00\x00\x00\x00\x00",
        Kind::GPdu,
        2,
        0x84,
        b"\x04\x11\x00\x00\x01\x00\x00\x01\x00\x00\x00\x00\x00\x00\x00\x00",
        b"",
    ),
    (b"\x34\xFF\x00\x09\x00\x00\x00\x03\x00\x00\x00\xC0\x01\x00\x02\x00\x03", Kind::GPdu, 3, 0xC0, b"\x01\x00\x02\x00", b"\x03"),
    (
        b"\x34\xFF\x00\x0D\x00\x00\x00\x03\x00\x00\x00\x82\x02\x03\xFF\xFF\x00\x00\x00\x00\x03",
        Kind::GPdu,
        3,
        0x82,
        b"\x02\x03\xFF\xFF\x00\x00\x00\x00",
        b"\x03",
    ),
    (b"\x30\xFE\x00\x00\x00\x00\x00\x03", Kind::EndMarker, 3, 0, b"", b""),
];

/// A sequence number, and all optional fields.
#[test]
fn packets_with_numbers(rt: HostRuntime) {
    let sequence = Packet {
        seq: Some(0x1234),
        ..packet(Kind::EchoRequest, 0, 0, b"", b"")
    };
    let octets = b"\x32\x01\x00\x04\x00\x00\x00\x00\x12\x34\x00\x00";
    assert!(rt; goes_both_ways(rt.alloc(), octets, sequence));
    let chain = b"\x01\xAA\xBB\xC0\x01\x0F\xFF\x00";
    let all = Packet {
        seq: Some(0x1234),
        npdu: Some(0x56),
        ..packet(Kind::GPdu, 0xFFFF_FFFE, 1, chain, b"\x45")
    };
    let octets =
        b"\x37\xFF\x00\x0D\xFF\xFF\xFF\xFE\x12\x34\x56\x01\x01\xAA\xBB\xC0\x01\x0F\xFF\x00\x45";
    assert!(rt; goes_both_ways(rt.alloc(), octets, all));
}

/// Forwarded with a COUNT, forwarded without one, and the end on N3.
#[rattlefmt::skip]
const PACKETS_OF_A_HANDOVER: [Row; 6] = [
    (b"\x34\xFF\x00\x09\x00\x00\x00\x03\x00\x00\x00\xC0\x01\x00\x00\x00\x01", Kind::GPdu, 3, 0xC0, b"\x01\x00\x00\x00", b"\x01"),
    (b"\x34\xFF\x00\x09\x00\x00\x00\x03\x00\x00\x00\xC0\x01\x00\x01\x00\x02", Kind::GPdu, 3, 0xC0, b"\x01\x00\x01\x00", b"\x02"),
    (b"\x34\xFF\x00\x09\x00\x00\x00\x04\x00\x00\x00\xC0\x01\x00\x00\x00\x45", Kind::GPdu, 4, 0xC0, b"\x01\x00\x00\x00", b"\x45"),
    (b"\x30\xFF\x00\x01\x00\x00\x00\x03\x04", Kind::GPdu, 3, 0, b"", b"\x04"),
    (b"\x30\xFF\x00\x01\x00\x00\x00\x03\x05", Kind::GPdu, 3, 0, b"", b"\x05"),
    (b"\x30\xFE\x00\x00\x00\x00\x00\x01", Kind::EndMarker, 1, 0, b"", b""),
];

/// The first packet, one put again after a loss, the next, that one put again, and a status.
#[rattlefmt::skip]
const PACKETS_OF_F1U: [Row; 5] = [
    (
        b"\x34\xFF\x00\x0F\x00\x00\x00\x01\x00\x00\x00\x84\x02\x00\x00\x00\x00\x00\x00\x00\x80\x00\x45",
        Kind::GPdu,
        1,
        0x84,
        b"\x02\x00\x00\x00\x00\x00\x00\x00",
        b"\x80\x00\x45",
    ),
    (
        b"\x34\xFF\x00\x0F\x00\x00\x00\x01\x00\x00\x00\x84\x02\x00\x01\x00\x00\x02\x00\x00\x80\x00\x01",
        Kind::GPdu,
        1,
        0x84,
        b"\x02\x00\x01\x00\x00\x02\x00\x00",
        b"\x80\x00\x01",
    ),
    (
        b"\x34\xFF\x00\x0F\x00\x00\x00\x01\x00\x00\x00\x84\x02\x00\x00\x00\x00\x03\x00\x00\x80\x01\x02",
        Kind::GPdu,
        1,
        0x84,
        b"\x02\x00\x00\x00\x00\x03\x00\x00",
        b"\x80\x01\x02",
    ),
    (
        b"\x34\xFF\x00\x0F\x00\x00\x00\x01\x00\x00\x00\x84\x02\x00\x01\x00\x00\x03\x00\x00\x80\x01\x02",
        Kind::GPdu,
        1,
        0x84,
        b"\x02\x00\x01\x00\x00\x03\x00\x00",
        b"\x80\x01\x02",
    ),
    (b"\x34\xFF\x00\x0C\x00\x00\x00\x02\x00\x00\x00\x84\x02\x10\x00\x00\x01\x00\x00\x00", Kind::GPdu, 2, 0x84, b"\x02\x10\x00\x00\x01\x00\x00\x00", b""),
];

#[test]
fn packets(rt: HostRuntime) {
    go_both_ways(&rt, rt.alloc(), &PACKETS);
    go_both_ways(&rt, rt.alloc(), &PACKETS_OF_A_HANDOVER);
    go_both_ways(&rt, rt.alloc(), &PACKETS_OF_F1U);
}

fn is_read_as(octets: &[u8], packet: Packet) -> bool {
    decode(octets) == Ok(packet)
}

#[test]
fn fields_that_are_not_evaluated(rt: HostRuntime) {
    let plain = packet(Kind::GPdu, 1, 0, b"", b"\x45");
    // the spare bit
    assert!(rt; is_read_as(b"\x38\xFF\x00\x01\x00\x00\x00\x01\x45", plain));
    // E without a header
    assert!(rt;
        is_read_as(
            b"\x34\xFF\x00\x05\x00\x00\x00\x01\x12\x34\x56\x00\x45",
            plain
        )
    );
    let numbered = Packet {
        seq: Some(0x1234),
        ..plain
    };
    assert!(rt;
        is_read_as(
            b"\x32\xFF\x00\x05\x00\x00\x00\x01\x12\x34\x56\x84\x45",
            numbered
        )
    );
}

#[rattlefmt::skip]
const REFUSALS: [(&[u8], GtpuError); 18] = [
    (b"", GtpuError::Truncated),
    (b"\x40\xFF\x00\x00\x00\x00\x00", GtpuError::Truncated),
    (b"\x40\xFF\x00\x00\x00\x00\x00\x01", GtpuError::Version),
    (b"\x20\x03\x00\x09\x00\x00\x00\x01", GtpuError::Version),
    (b"\x30\x03\x00\x00\x00\x00\x00\x01", GtpuError::Kind),
    (b"\x30\xFD\x00\x09\x00\x00\x00\x01\x45", GtpuError::Kind),
    (b"\x30\xFF\x00\x02\x00\x00\x00\x01\x45", GtpuError::Truncated),
    (b"\x34\xFF\x01\x00\x00\x00\x00\x01\x45", GtpuError::Truncated),
    (b"\x30\xFF\x00\x00\x00\x00\x00\x01\x45", GtpuError::Length),
    (b"\x31\xFF\x00\x03\x00\x00\x00\x01\x00\x00\x00", GtpuError::Length),
    (b"\x34\xFF\x00\x08\x00\x00\x00\x01\x00\x00\x00\x81\x01\x00\x00\x00", GtpuError::ExtRequired),
    // both hold of this header, and then this of the second one
    (b"\x34\xFF\x00\x08\x00\x00\x00\x01\x00\x00\x00\xFF\x00\x00\x00\x00", GtpuError::ExtRequired),
    (b"\x34\xFF\x00\x08\x00\x00\x00\x01\x00\x00\x00\x01\x01\x00\x00\xC1", GtpuError::ExtRequired),
    (b"\x34\xFF\x00\x08\x00\x00\x00\x01\x00\x00\x00\x84\x00\x00\x00\x00", GtpuError::ExtLength),
    (b"\x34\xFF\x00\x0C\x00\x00\x00\x01\x00\x00\x00\xC0\x02\x00\x00\x00\x00\x00\x00\x00", GtpuError::ExtLength),
    (b"\x34\xFF\x00\x08\x00\x00\x00\x01\x00\x00\x00\x82\x01\x00\x00\x00", GtpuError::ExtLength),
    (b"\x34\xFF\x00\x04\x00\x00\x00\x01\x00\x00\x00\x84", GtpuError::ExtLength),
    (b"\x34\xFF\x00\x08\x00\x00\x00\x01\x00\x00\x00\x01\x02\x00\x00\x00", GtpuError::ExtLength),
];

fn is_refused(octets: &[u8], error: GtpuError) -> bool {
    decode(octets) == Err(error)
}

#[test]
fn refusals(rt: HostRuntime) {
    for &(octets, error) in &REFUSALS {
        assert!(rt; is_refused(octets, error), "{octets:?}");
    }
}

/// The octets of two extension headers, one known and one not, and one more.
const EXTENDED: &[u8] =
    b"\x34\xFF\x00\x10\x00\x00\x00\x01\x00\x00\x00\x01\x01\xAA\xBB\xC0\x01\x0F\xFF\x01\x01\xCC\xDD\x00";

/// The type of an extension header, and its content, if it is there.
const EXTENSIONS: [(u8, Option<&[u8]>); 4] = [
    (0x01, Some(b"\xAA\xBB")),
    (PDCP_PDU_NUMBER, Some(b"\x0F\xFF")),
    (NR_RAN_CONTAINER, None),
    (LONG_PDCP_PDU_NUMBER, None),
];

fn has_extension(octets: &[u8], code: u8, content: Option<&[u8]>) -> bool {
    match decode(octets) {
        Ok(packet) => extension(&packet, code) == content,
        Err(_) => false,
    }
}

#[test]
fn extensions(rt: HostRuntime) {
    for &(code, content) in &EXTENSIONS {
        assert!(rt; has_extension(EXTENDED, code, content), "{code}");
    }
}
