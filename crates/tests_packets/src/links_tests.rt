//! Octets written out by hand: what they say on their link, and some that no link has.

use gnb_types::bits::Bits;
use gnb_types::names::SnBits::{self, Len12, Len18};
use gnb_types::octets::{Memory, Octets};
use link_packets::*;
use nr_user_plane::ranges::Ranges;
use pdcp::pdu::Pdu;
use std::process::Abort;
use std::test::Fail;

const N3_PACKET: &[u8] = b"\x30\xFF\x00\x01\x00\x00\x00\x01\x45";

const END: &[u8] = b"\x30\xFE\x00\x00\x00\x00\x00\x03";

const DATA: &[u8] =
    b"\x34\xFF\x00\x0F\x00\x00\x00\x01\x00\x00\x00\x84\x02\x00\x01\x00\x00\x02\x00\x00\x80\x00\x01";

const POLL: &[u8] =
    b"\x34\xFF\x00\x0C\x00\x00\x00\x01\x00\x00\x00\x84\x02\x01\x00\x00\x00\x01\x00\x00";

const UPLINK: &[u8] = b"\x30\xFF\x00\x03\x00\x00\x00\x02\x80\x00\x45";

const REPORT: &[u8] = b"\x30\xFF\x00\x06\x00\x00\x00\x02\x00\x00\x00\x00\x05\x60";

const STATUS: &[u8] =
    b"\x34\xFF\x00\x10\x00\x00\x00\x02\x00\x00\x00\x84\x03\x14\x00\x00\x01\x00\x00\x00\x00\x00\x00\x00";

const NUMBERED: &[u8] = b"\x34\xFF\x00\x09\x00\x00\x00\x03\x00\x00\x00\xC0\x01\x10\x02\x00\x03";

const LONG_NUMBER: &[u8] =
    b"\x34\xFF\x00\x0D\x00\x00\x00\x03\x00\x00\x00\x82\x02\x03\xFF\xFF\x00\x00\x00\x00\x03";

fn are_of_n3(rt: &impl Abort, table: &[(&[u8], Option<N3>)]) {
    for (octets, read) in table {
        assert!(rt; read_n3(octets) == *read, "{octets:?}");
    }
}

/// On N3 a packet and an End Marker; a sequence number, no packet, and a header of another link are none of its.
#[test]
fn octets_of_n3(rt: HostRuntime) {
    let table: [(&[u8], Option<N3>); 5] = [
        (N3_PACKET, Some(N3::Packet(b"\x45"))),
        (END, Some(N3::End)),
        (
            b"\x32\xFF\x00\x05\x00\x00\x00\x01\x00\x00\x00\x00\x45",
            None,
        ),
        (b"\x30\xFF\x00\x00\x00\x00\x00\x01", None),
        (NUMBERED, None),
    ];
    are_of_n3(&rt, &table);
}

fn are_to_a_du(rt: &impl Abort, table: &[(&[u8], Option<F1uDownlink>)]) {
    for (octets, read) in table {
        assert!(rt; read_f1u_downlink(Len12, octets) == *read, "{octets:?}");
    }
}

/// To a DU a packet and a poll; an End Marker, a status, a poll with a PDU, and a data frame without one are none of its.
#[test]
fn octets_to_a_du(rt: HostRuntime) {
    let content = Pdu::Packet {
        sn: 0,
        packet: b"\x01",
    };
    let data = F1uDownlink::Pdu {
        restart: true,
        number: 2,
        content,
        octets: b"\x80\x00\x01",
    };
    let poll = F1uDownlink::Poll {
        restart: false,
        number: 1,
    };
    let table: [(&[u8], Option<F1uDownlink>); 6] = [
        (DATA, Some(data)),
        (POLL, Some(poll)),
        (END, None),
        (STATUS, None),
        (
            b"\x34\xFF\x00\x0F\x00\x00\x00\x01\x00\x00\x00\x84\x02\x01\x00\x00\x00\x01\x00\x00\x80\x00\x01",
            None,
        ),
        (
            b"\x34\xFF\x00\x0C\x00\x00\x00\x01\x00\x00\x00\x84\x02\x00\x00\x00\x00\x01\x00\x00",
            None,
        ),
    ];
    are_to_a_du(&rt, &table);
}

fn is_from_a_du(sn: SnBits, octets: &[u8], read: &F1uUplink) -> bool {
    read_f1u_uplink(sn, octets).as_ref() == Some(read)
}

/// From a DU a packet and a report.
#[test]
fn pdus_from_a_du(rt: HostRuntime) {
    let packet = F1uUplink::Pdu {
        content: Pdu::Packet {
            sn: 0,
            packet: b"\x45",
        },
        octets: b"\x80\x00\x45",
    };
    assert!(rt; is_from_a_du(Len12, UPLINK, &packet));
    drop(packet);
    let report = F1uUplink::Pdu {
        content: Pdu::Report {
            fmc: 5,
            bits: b"\x60",
        },
        octets: b"\x00\x00\x00\x00\x05\x60",
    };
    assert!(rt; is_from_a_du(Len18, REPORT, &report));
    drop(report);
}

/// From a DU a status and an End Marker.
#[test]
fn others_from_a_du(rt: HostRuntime) {
    let status = F1uUplink::Status {
        room: 65536,
        lost: Ranges::new(),
        delivered: Some(0),
    };
    assert!(rt; is_from_a_du(Len12, STATUS, &status));
    drop(status);
    assert!(rt; is_from_a_du(Len12, END, &F1uUplink::End));
}

/// A status with a payload.
const STATUS_AND_PAYLOAD: &[u8] =
    b"\x34\xFF\x00\x0D\x00\x00\x00\x02\x00\x00\x00\x84\x02\x10\x00\x00\x01\x00\x00\x00\x45";

/// A frame for the way down, and a status with a payload don't come from a DU.
#[test]
fn none_from_a_du(rt: HostRuntime) {
    assert!(rt; read_f1u_uplink(Len12, DATA).is_none());
    assert!(rt; read_f1u_uplink(Len12, STATUS_AND_PAYLOAD).is_none());
}

fn are_forwarded_down(rt: &impl Abort, table: &[(SnBits, &[u8], Option<Forwarded>)]) {
    for (sn, octets, read) in table {
        assert!(rt; read_forwarding_down(*sn, octets) == *read, "{octets:?}");
    }
}

/// Between two CU-UPs downwards a packet with its number, read modulo the sequence space, and one without; the header of the
/// other length of numbers, and two headers are none of its.
#[test]
fn octets_forwarded_down(rt: HostRuntime) {
    let numbered = Forwarded::Numbered {
        number: 2,
        packet: b"\x03",
    };
    let table: [(SnBits, &[u8], Option<Forwarded>); 4] = [
        (Len12, NUMBERED, Some(numbered)),
        (Len12, N3_PACKET, Some(Forwarded::Fresh(b"\x45"))),
        (Len18, NUMBERED, None),
        (
            Len12,
            b"\x34\xFF\x00\x0D\x00\x00\x00\x03\x00\x00\x00\xC0\x01\x00\x02\xC0\x01\x00\x02\x00\x03",
            None,
        ),
    ];
    are_forwarded_down(&rt, &table);
}

fn are_forwarded_up(rt: &impl Abort, table: &[(SnBits, &[u8], Option<Forwarded>)]) {
    for (sn, octets, read) in table {
        assert!(rt; read_forwarding_up(*sn, octets) == *read, "{octets:?}");
    }
}

/// Upwards a packet with its number, and an End Marker; the header of the other length of numbers, and no header are none of its.
#[test]
fn octets_forwarded_up(rt: HostRuntime) {
    let numbered = Forwarded::Numbered {
        number: 0x3_FFFF,
        packet: b"\x03",
    };
    let table: [(SnBits, &[u8], Option<Forwarded>); 4] = [
        (Len18, LONG_NUMBER, Some(numbered)),
        (Len12, END, Some(Forwarded::End)),
        (Len12, LONG_NUMBER, None),
        (Len12, N3_PACKET, None),
    ];
    are_forwarded_up(&rt, &table);
}

#[test]
fn octets_of_a_radio(rt: HostRuntime) {
    let packet = Pdu::Packet {
        sn: 0,
        packet: b"\x45",
    };
    assert!(rt; read_radio(Len12, b"\x80\x00\x45") == Some(packet));
}

/// Whether a call wrote these octets.
fn has(written: Result<Octets, Memory>, octets: &[u8]) -> bool {
    match written {
        Ok(written) => written.as_slice() == octets,
        Err(_) => false,
    }
}

#[test]
fn written_octets(rt: HostRuntime) {
    let alloc = rt.alloc();
    assert!(rt; has(write_n3(alloc, 1, b"\x45"), N3_PACKET));
    let data = write_f1u_downlink_packet(alloc, Len12, 1, true, 2, 0, b"\x01");
    assert!(rt; has(data, DATA));
    assert!(rt; has(write_f1u_downlink_poll(alloc, 1, 1), POLL));
    assert!(rt; has(write_f1u_uplink_pdu(alloc, 2, b"\x80\x00\x45"), UPLINK));
    let status = write_delivery_status(alloc, 2, Ranges::new(), Some(0));
    assert!(rt; has(status, STATUS));
    assert!(rt; has(write_end_marker(alloc, 3), END));
}

#[test]
fn written_reports(rt: HostRuntime) -> Result<(), Fail> {
    let bits = Bits::from_slice(rt.alloc(), &[false, true, true])?;
    let octets =
        b"\x34\xFF\x00\x12\x00\x00\x00\x01\x00\x00\x00\x84\x02\x00\x00\x00\x00\x00\x00\x00\x00\x00\x00\x00\x05\x60".as_slice();
    assert!(rt;
        has(
            write_f1u_downlink_report(rt.alloc(), 1, 0, 5, &bits),
            octets
        )
    );
    Ok(())
}

#[test]
fn written_forwarded_octets(rt: HostRuntime) {
    let alloc = rt.alloc();
    let octets = b"\x34\xFF\x00\x09\x00\x00\x00\x03\x00\x00\x00\xC0\x01\x00\x02\x00\x03".as_slice();
    let numbered = write_forwarded_numbered(alloc, Len12, 3, 0x1002, b"\x03");
    assert!(rt; has(numbered, octets));
    let numbered = write_forwarded_numbered(alloc, Len18, 3, 0x7_FFFF, b"\x03");
    assert!(rt; has(numbered, LONG_NUMBER));
    assert!(rt; has(write_forwarded_fresh(alloc, 1, b"\x45"), N3_PACKET));
}
