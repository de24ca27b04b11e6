//! Frames inside the packets of a worked network, and refusals written by hand.

ghost use Rattle.std.specs.Prelude.{◌≡◌, ◌≤◌, length, IsTrue};
ghost use Rattle.nr_user_plane.specs.Frames.{AreApart, FitsFrame};

use gnb_types::hex::hex_bytes;
use nr_user_plane::{Frame, FrameError, Ranges, decode, encode};
use std::alloc::Global;

/// The desired buffer size that a DU writes.
const ROOM: u32 = 65_536;

fn data(poll: bool, restart: bool, sn: u32) -> Frame
    ensures { result ≡ Frame.Data poll restart sn }
{
    Frame::Data { poll, restart, sn }
}

fn status(lost: &[(u32, u32)], delivered: Option<u32>) -> Frame {
    let mut ranges = Ranges::new();
    for (start, end) in lost {
        if ranges.len() < Ranges::MAX {
            ranges.push(*start, *end);
        }
    }
    Frame::Status {
        room: ROOM,
        lost: ranges,
        delivered,
    }
}

/// Whether a frame can be written.
fn fits(frame: &Frame) -> bool
    ensures { IsTrue result → FitsFrame frame.now }
{
    match frame {
        Frame::Data { sn, .. } => *sn < 1 << 24,
        Frame::Status {
            lost,
            delivered,
            ..
        } => is_short(lost.as_slice()) && delivered.is_none_or(|number| number < 1 << 24),
    }
}

/// Whether these are no ranges, or one or two that a frame can report.
fn is_short(lost: &[(u32, u32)]) -> bool
    ensures { IsTrue result → (length lost.now ≤ 7) × AreApart 0 lost.now }
{
    match lost {
        [] => true,
        [(start, end)] => start <= end && *end < 1 << 24,
        [(start, end), (next, last)] => {
            start <= end && end < next && next <= last && *last < 1 << 24
        }
        _ => false,
    }
}

/// Whether a frame is written as these octets.
fn is_written(alloc: Global, frame: &Frame, content: &[u8]) -> bool
    requires { FitsFrame frame.now }
{
    match encode(alloc, frame) {
        Ok(octets) => octets.as_slice() == content,
        Err(_) => false,
    }
}

/// Whether octets are read as a frame that is written as them.
fn goes_both_ways(alloc: Global, content: &[u8], frame: &Frame) -> bool {
    if !fits(frame) {
        return false;
    }
    is_written(alloc, frame, content) && decode(content).as_ref() == Ok(frame)
}

/// The frame's octets in a packet: eight octets of GTP-U header and four of its flags stand before the extension header, which is
/// its length, its content and the next type.
fn content_of(packet: &[u8]) -> Option<&[u8]> {
    let units = packet.get(12).copied()?;
    let end = 12 + 4 * usize::from(units) - 1;
    packet.get(13..end)
}

fn is_in_packet(alloc: Global, frame: &Frame, packet: &str) -> bool {
    let Ok(packet) = hex_bytes(alloc, packet.as_bytes()) else {
        return false;
    };
    match content_of(packet.as_slice()) {
        Some(content) => goes_both_ways(alloc, content, frame),
        None => false,
    }
}

/// Packets, and of the data frame in each whether it polls, whether its numbers begin anew, and its number.
#[rattlefmt::skip]
const DATA_FRAMES: [(&str, bool, bool, u32); 7] = [
    ("34FF000F00000001000000840200000000000000800045", false, false, 0),
    ("34FF00100000000100000084020000000000000080000045", false, false, 0),
    ("34FF000C00000001000000840201000000010000", true, false, 1),
    ("34FF000F00000001000000840200010000020000800001", false, true, 2),
    ("34FF000F00000001000000840200000000030000800102", false, false, 3),
    ("34FF000F00000001000000840200010000030000800102", false, true, 3),
    ("34FF000F00000001000000840200000000010000800001", false, false, 1),
];

fn is_data(alloc: Global, packet: &str, poll: bool, restart: bool, sn: u32) -> bool {
    let frame = data(poll, restart, sn);
    is_in_packet(alloc, &frame, packet)
}

#[test]
fn data_frames_in_packets(rt: HostRuntime) {
    for &(packet, poll, restart, sn) in &DATA_FRAMES {
        assert!(rt; is_data(rt.alloc(), packet, poll, restart, sn), "{packet}");
    }
}

/// Packets, and of the status in each the ranges that are lost, and the number that was delivered.
#[rattlefmt::skip]
const STATUSES: [(&str, &[(u32, u32)], Option<u32>); 4] = [
    ("34FF00100000000200000084031400000100000000000000", &[], Some(0)),
    ("34FF000C00000002000000840210000001000000", &[], None),
    ("34FF0014000000020000008404110000010000010000000000000000", &[(0, 0)], None),
    // by hand: numbers 1 and 2 and number 5 lost, 258 delivered, all flags of a status
    ("34FF001C0000000200000084061500000100000200000100000200000500000500010200", &[(1, 2), (5, 5)], Some(258)),
];

fn is_status(alloc: Global, packet: &str, lost: &[(u32, u32)], delivered: Option<u32>) -> bool {
    let frame = status(lost, delivered);
    is_in_packet(alloc, &frame, packet)
}

#[test]
fn statuses_in_packets(rt: HostRuntime) {
    for &(packet, lost, delivered) in &STATUSES {
        assert!(rt; is_status(rt.alloc(), packet, lost, delivered), "{packet}");
    }
}

/// Octets that are no frame, and the reason.
const REFUSALS: [(&str, FrameError); 17] = [
    // no octet
    ("", FrameError::Truncated),
    // kinds 2 and 15
    ("2000", FrameError::Kind),
    ("F00000000000", FrameError::Kind),
    // fewer octets than the fields need
    ("00000000", FrameError::Truncated),
    ("1400000100000000", FrameError::Truncated),
    ("11000001000008", FrameError::Truncated),
    // no ranges, eight of them, a start above its end, and a range that begins at the end of the one before it
    ("11000001000000", FrameError::Ranges),
    (
        "1100000100000800000000000000000100000100000200000200000300000300000400000400000500000500000600000600000700000700",
        FrameError::Ranges,
    ),
    ("11000001000001000002000001", FrameError::Ranges),
    ("11000001000002000001000002000002000003", FrameError::Ranges),
    // spare bits of both kinds, and padding that is too long or isn't zeros
    ("020000000000", FrameError::Spare),
    ("000200000000", FrameError::Spare),
    ("120000010000", FrameError::Spare),
    ("180000010000", FrameError::Spare),
    ("100100010000", FrameError::Spare),
    ("000000000000000000", FrameError::Spare),
    ("100000010000000001", FrameError::Spare),
];

fn is_refused(alloc: Global, content: &str, reason: FrameError) -> bool {
    match hex_bytes(alloc, content.as_bytes()) {
        Ok(content) => decode(content.as_slice()) == Err(reason),
        Err(_) => false,
    }
}

#[test]
fn refused_frames(rt: HostRuntime) {
    for &(content, reason) in &REFUSALS {
        assert!(rt; is_refused(rt.alloc(), content, reason), "{content}");
    }
}
