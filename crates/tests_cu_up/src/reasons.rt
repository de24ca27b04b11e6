//! Each reason for which a CU-UP holds an item or drops an input, in the states of a target, and numbers that begin again. What it should
//! put out was worked out by another implementation of the procedures, but for what that one takes for granted: requests that the state
//! rules out, and a second End Marker.

use crate::rows::{SET_UP_TARGET, WAS_SET_UP_TARGET};
use crate::steps::{CP, Call, DU, PEER, Put, is_as_told};
use gnb_types::names::Dir;
use gnb_types::outputs::Tag;
use gnb_types::reasons::{DropReason, HeldReason};
use std::test::Fail;

/// A packet of N3.
const FROM_CORE: Call = Call::Packet(1, "30FF00010000000145");

/// Packets that the source forwards, without a number and with one, and the end of them.
const FROM_SOURCE: Call = Call::Packet(3, "30FF00010000000345");

const NUMBERED: Call = Call::Packet(3, "34FF000900000003000000C00100000045");

const END_DOWN: Call = Call::Packet(3, "30FE000000000003");

/// Uplink packets, from the DU and from the source, and the end of what the source forwards.
const UPLINK: Call = Call::Packet(2, "30FF000300000002800061");

const FIFTH_UPLINK: Call = Call::Packet(2, "30FF000300000002800465");

const LATE_UPLINK: Call = Call::Packet(4, "34FF000900000004000000C00100000061");

const END_UP: Call = Call::Packet(4, "30FE000000000004");

/// Each reason to hold an item, in their order.
#[rattlefmt::skip]
const HELD: [(Call, &[Put]); 37] = [
    (SET_UP_TARGET, WAS_SET_UP_TARGET),
    // Before the SN status, whatever comes.
    (FROM_CORE, &[Put::Held(HeldReason::NoStatus)]),
    (NUMBERED, &[Put::Held(HeldReason::NoStatus)]),
    (FROM_SOURCE, &[Put::Held(HeldReason::NoStatus)]),
    (END_DOWN, &[Put::Held(HeldReason::NoStatus)]),
    (UPLINK, &[Put::Held(HeldReason::NoStatus)]),
    (Call::Packet(2, "34FF00100000000200000084031400000100000000000000"), &[Put::Held(HeldReason::NoStatus)]),
    (LATE_UPLINK, &[Put::Held(HeldReason::NoStatus)]),
    (END_UP, &[Put::Held(HeldReason::NoStatus)]),
    (Call::Give(CP, "0301020000000000"), &[Put::Say(1, "13010200")]),
    // Before the terminal arrived.
    (FROM_CORE, &[Put::Held(HeldReason::NotArrived)]),
    (FROM_SOURCE, &[Put::Held(HeldReason::NotArrived)]),
    (UPLINK, &[Put::Held(HeldReason::NotArrived)]),
    (LATE_UPLINK, &[Put::Held(HeldReason::NotArrived)]),
    // Nor can it freeze.
    (Call::Give(CP, "03010301010809"), &[Put::Drop(DropReason::Unexpected)]),
    (Call::Give(CP, "0301040107"), &[Put::Packet(DU, 7, Dir::Dl, Tag::Absent, "34FF0011000000070000008402000000000000000000000000"), Put::Say(1, "13010400")]),
    // What comes from the core is early.
    (FROM_CORE, &[Put::Held(HeldReason::Early)]),
    (Call::Packet(3, "30FF00010000000341"), &[Put::Packet(DU, 7, Dir::Dl, Tag::Own(0), "34FF000F00000007000000840200000000010000800041")]),
    (Call::Packet(3, "30FF00010000000342"), &[Put::Packet(DU, 7, Dir::Dl, Tag::Own(1), "34FF000F00000007000000840200000000020000800142")]),
    (Call::Packet(3, "30FF00010000000343"), &[Put::Packet(DU, 7, Dir::Dl, Tag::Own(2), "34FF000F00000007000000840200000000030000800243")]),
    (Call::Packet(3, "30FF00010000000344"), &[Put::Packet(DU, 7, Dir::Dl, Tag::Own(3), "34FF000F00000007000000840200000000040000800344")]),
    // A fifth packet has no room, from the source or from the core.
    (FROM_SOURCE, &[Put::Held(HeldReason::Quota)]),
    // It is early before it has no room.
    (FROM_CORE, &[Put::Held(HeldReason::Early)]),
    (END_DOWN, &[]),
    (FROM_CORE, &[Put::Held(HeldReason::Quota)]),
    // An uplink packet is ahead of the four awaited ones, from the source too.
    (FIFTH_UPLINK, &[Put::Held(HeldReason::Ahead)]),
    (Call::Packet(4, "34FF000900000004000000C00100040065"), &[Put::Held(HeldReason::Ahead)]),
    (
        Call::Give(CP, "03010501010809"),
        &[
            Put::Packet(
                PEER,
                8,
                Dir::Dl,
                Tag::Own(0),
                "34FF000900000008000000C00100000041",
            ),
            Put::Packet(
                PEER,
                8,
                Dir::Dl,
                Tag::Own(1),
                "34FF000900000008000000C00100010042",
            ),
            Put::Packet(
                PEER,
                8,
                Dir::Dl,
                Tag::Own(2),
                "34FF000900000008000000C00100020043",
            ),
            Put::Packet(
                PEER,
                8,
                Dir::Dl,
                Tag::Own(3),
                "34FF000900000008000000C00100030044",
            ),
            Put::Say(1, "130105000400"),
        ],
    ),
    // Frozen, it stores the four awaited ones.
    (Call::Packet(2, "30FF000300000002800060"), &[Put::Packet(PEER, 9, Dir::Ul, Tag::Same, "34FF000900000009000000C00100000060")]),
    (Call::Packet(2, "30FF000300000002800161"), &[Put::Packet(PEER, 9, Dir::Ul, Tag::Same, "34FF000900000009000000C00100010061")]),
    (Call::Packet(2, "30FF000300000002800262"), &[Put::Packet(PEER, 9, Dir::Ul, Tag::Same, "34FF000900000009000000C00100020062")]),
    (Call::Packet(2, "30FF000300000002800363"), &[Put::Packet(PEER, 9, Dir::Ul, Tag::Same, "34FF000900000009000000C00100030063")]),
    // The next one has no room, before it is ahead.
    (FIFTH_UPLINK, &[Put::Held(HeldReason::Quota)]),
    // One more of them has none either, before it is a duplicate.
    (Call::Packet(2, "30FF000300000002800060"), &[Put::Held(HeldReason::Quota)]),
    // Released, it keeps no packet, and nothing is held.
    (Call::Give(CP, "05010600"), &[Put::Say(1, "140106")]),
    (Call::Packet(1, "30FF00010000000146"), &[Put::Packet(PEER, 8, Dir::Dl, Tag::Absent, "30FF00010000000846")]),
    (FIFTH_UPLINK, &[Put::Packet(PEER, 9, Dir::Ul, Tag::Same, "34FF000900000009000000C00100040065")]),
];

/// What a target drops, and what it drops once it is released.
#[rattlefmt::skip]
const DROPPED: [(Call, &[Put]); 29] = [
    (SET_UP_TARGET, WAS_SET_UP_TARGET),
    (Call::Give(CP, "0301020202000000"), &[Put::Say(1, "13010200")]),
    (Call::Give(CP, "0301030107"), &[Put::Packet(DU, 7, Dir::Dl, Tag::Absent, "34FF0011000000070000008402000000000000000000000002"), Put::Say(1, "13010300")]),
    // Down, a COUNT that the source never gave, the same twice, and one below it.
    (Call::Packet(3, "34FF000900000003000000C00100020045"), &[Put::Drop(DropReason::Duplicate)]),
    (Call::Packet(3, "34FF000900000003000000C00100010046"), &[Put::Packet(DU, 7, Dir::Dl, Tag::Same, "34FF000F00000007000000840200000000010000800146")]),
    (Call::Packet(3, "34FF000900000003000000C00100010046"), &[Put::Drop(DropReason::Duplicate)]),
    (NUMBERED, &[Put::Drop(DropReason::Duplicate)]),
    // Up, a packet without a number.
    (Call::Packet(4, "30FF00010000000461"), &[Put::Drop(DropReason::Undecodable)]),
    // A number of no COUNT, one that was delivered, and one that is stored.
    (Call::Packet(2, "30FF0003000000028FFF61"), &[Put::Drop(DropReason::Duplicate)]),
    (Call::Packet(2, "30FF000300000002800161"), &[Put::Drop(DropReason::Duplicate)]),
    (Call::Packet(2, "30FF000300000002800363"), &[]),
    (Call::Packet(4, "34FF000900000004000000C00100030063"), &[Put::Drop(DropReason::Duplicate)]),
    // A number on N3.
    (Call::Packet(1, "34FF000900000001000000C00100000045"), &[Put::Drop(DropReason::Undecodable)]),
    (END_DOWN, &[]),
    (END_DOWN, &[Put::Drop(DropReason::Unexpected)]),
    (END_UP, &[]),
    (END_UP, &[Put::Drop(DropReason::Unexpected)]),
    (
        Call::Give(CP, "03010401010809"),
        &[
            Put::Packet(
                PEER,
                8,
                Dir::Dl,
                Tag::Own(1),
                "34FF000900000008000000C00100010046",
            ),
            Put::Packet(
                PEER,
                9,
                Dir::Ul,
                Tag::Own(3),
                "34FF000900000009000000C00100030063",
            ),
            Put::Say(1, "130104000202"),
        ],
    ),
    (Call::Give(CP, "05010500"), &[Put::Say(1, "140105")]),
    // Released, it takes no order but a release.
    (Call::Give(CP, "0301060107"), &[Put::Drop(DropReason::Unexpected)]),
    (Call::Give(CP, "03010701010809"), &[Put::Drop(DropReason::Unexpected)]),
    (Call::Give(CP, "03010804"), &[Put::Drop(DropReason::Unexpected)]),
    (Call::Give(CP, "03010900"), &[Put::Drop(DropReason::Unexpected)]),
    // What was delivered before isn't passed on.
    (Call::Packet(2, "30FF000300000002800161"), &[Put::Drop(DropReason::Duplicate)]),
    (Call::Packet(2, "30FF000300000002800363"), &[Put::Packet(PEER, 9, Dir::Ul, Tag::Same, "34FF000900000009000000C00100030063")]),
    (Call::Packet(1, "30FE000000000001"), &[Put::Packet(PEER, 8, Dir::Dl, Tag::Absent, "30FE000000000008"), Put::Closed(1)]),
    (Call::Packet(2, "30FE000000000002"), &[Put::Closed(2), Put::Packet(PEER, 9, Dir::Ul, Tag::Absent, "30FE000000000009"), Put::Closed(3), Put::Closed(4)]),
    (Call::Packet(2, "30FF000300000002800161"), &[Put::Drop(DropReason::NoTunnel)]),
    // It is gone.
    (Call::Give(CP, "03010A04"), &[Put::Drop(DropReason::NoContext)]),
];

/// The source stood at the last number of 12 bits: the target goes on at 0.
#[rattlefmt::skip]
const WRAPS_12: [(Call, &[Put]); 19] = [
    (SET_UP_TARGET, WAS_SET_UP_TARGET),
    (Call::Give(CP, "030102FFFF0F0F00"), &[Put::Say(1, "13010200")]),
    (Call::Give(CP, "0301030107"), &[Put::Packet(DU, 7, Dir::Dl, Tag::Absent, "34FF0011000000070000008402000000000000000000000FFF"), Put::Say(1, "13010300")]),
    // What the source numbered, and what gets the last number and the first one.
    (Call::Packet(3, "34FF000900000003000000C0010FFE0041"), &[Put::Packet(DU, 7, Dir::Dl, Tag::Same, "34FF000F000000070000008402000000000100008FFE41")]),
    (Call::Packet(3, "30FF00010000000342"), &[Put::Packet(DU, 7, Dir::Dl, Tag::Own(4095), "34FF000F000000070000008402000000000200008FFF42")]),
    (Call::Packet(3, "30FF00010000000343"), &[Put::Packet(DU, 7, Dir::Dl, Tag::Own(4096), "34FF000F00000007000000840200000000030000800043")]),
    (Call::Packet(3, "34FF000900000003000000C0010FFF0041"), &[Put::Drop(DropReason::Duplicate)]),
    (END_DOWN, &[]),
    (Call::Packet(1, "30FF00010000000144"), &[Put::Packet(DU, 7, Dir::Dl, Tag::Own(4097), "34FF000F00000007000000840200000000040000800144")]),
    (FROM_CORE, &[Put::Held(HeldReason::Quota)]),
    // Up, the numbers are found near the awaited one.
    (Call::Packet(2, "30FF0003000000028FFF61"), &[Put::Deliver(4095, "61")]),
    (Call::Packet(2, "30FF000300000002800163"), &[]),
    (Call::Packet(2, "30FF000300000002800062"), &[Put::Deliver(4096, "62"), Put::Deliver(4097, "63")]),
    (Call::Packet(2, "30FF0003000000028FFF61"), &[Put::Drop(DropReason::Duplicate)]),
    (Call::Packet(2, "30FF000300000002800667"), &[Put::Held(HeldReason::Ahead)]),
    // What the DU delivered is given up to the first number after the wrap.
    (Call::Packet(2, "34FF00100000000200000084031400000100000000000000"), &[]),
    (FROM_CORE, &[Put::Packet(DU, 7, Dir::Dl, Tag::Own(4098), "34FF000F00000007000000840200000000050000800245")]),
    (Call::Packet(2, "30FF000600000002000000100200"), &[]),
    // The rest goes to the target, with numbers after the wrap.
    (Call::Give(CP, "03010401010809"), &[Put::Packet(PEER, 8, Dir::Dl, Tag::Own(4098), "34FF000900000008000000C00100020045"), Put::Say(1, "130104000302")]),
];

/// The same with numbers of 18 bits.
#[rattlefmt::skip]
const WRAPS_18: [(Call, &[Put]); 19] = [
    (Call::Give(CP, "030101000001"), WAS_SET_UP_TARGET),
    (Call::Give(CP, "030102FFFFFFFF03"), &[Put::Say(1, "13010200")]),
    (Call::Give(CP, "0301030107"), &[Put::Packet(DU, 7, Dir::Dl, Tag::Absent, "34FF001100000007000000840200000000000000000003FFFF"), Put::Say(1, "13010300")]),
    // What the source numbered, and what gets the last number and the first one.
    (
        Call::Packet(3, "34FF000D00000003000000820203FFFE0000000041"),
        &[Put::Packet(
            DU,
            7,
            Dir::Dl,
            Tag::Same,
            "34FF00100000000700000084020000000001000083FFFE41",
        )],
    ),
    (Call::Packet(3, "30FF00010000000342"), &[Put::Packet(DU, 7, Dir::Dl, Tag::Own(262143), "34FF00100000000700000084020000000002000083FFFF42")]),
    (Call::Packet(3, "30FF00010000000343"), &[Put::Packet(DU, 7, Dir::Dl, Tag::Own(262144), "34FF00100000000700000084020000000003000080000043")]),
    (Call::Packet(3, "34FF000D00000003000000820203FFFF0000000041"), &[Put::Drop(DropReason::Duplicate)]),
    (END_DOWN, &[]),
    (Call::Packet(1, "30FF00010000000144"), &[Put::Packet(DU, 7, Dir::Dl, Tag::Own(262145), "34FF00100000000700000084020000000004000080000144")]),
    (FROM_CORE, &[Put::Held(HeldReason::Quota)]),
    // Up, the numbers are found near the awaited one.
    (Call::Packet(2, "30FF00040000000283FFFF61"), &[Put::Deliver(262143, "61")]),
    (Call::Packet(2, "30FF00040000000280000163"), &[]),
    (Call::Packet(2, "30FF00040000000280000062"), &[Put::Deliver(262144, "62"), Put::Deliver(262145, "63")]),
    (Call::Packet(2, "30FF00040000000283FFFF61"), &[Put::Drop(DropReason::Duplicate)]),
    (Call::Packet(2, "30FF00040000000280000667"), &[Put::Held(HeldReason::Ahead)]),
    // What the DU delivered is given up to the first number after the wrap.
    (Call::Packet(2, "34FF00100000000200000084031400000100000000000000"), &[]),
    (FROM_CORE, &[Put::Packet(DU, 7, Dir::Dl, Tag::Own(262146), "34FF00100000000700000084020000000005000080000245")]),
    (Call::Packet(2, "30FF000600000002000004000200"), &[]),
    // The rest goes to the target, with numbers after the wrap.
    (
        Call::Give(CP, "03010401010809"),
        &[
            Put::Packet(
                PEER,
                8,
                Dir::Dl,
                Tag::Own(262146),
                "34FF000D0000000800000082020000020000000045",
            ),
            Put::Say(1, "130104000302"),
        ],
    ),
];

#[test]
fn holds_as_a_target(rt: HostRuntime) -> Result<(), Fail> {
    assert!(rt; is_as_told(rt.alloc(), &HELD)?);
    Ok(())
}

#[test]
fn drops_as_a_target(rt: HostRuntime) -> Result<(), Fail> {
    assert!(rt; is_as_told(rt.alloc(), &DROPPED)?);
    Ok(())
}

#[test]
fn numbers_of_12_bits_begin_again(rt: HostRuntime) -> Result<(), Fail> {
    assert!(rt; is_as_told(rt.alloc(), &WRAPS_12)?);
    Ok(())
}

#[test]
fn numbers_of_18_bits_begin_again(rt: HostRuntime) -> Result<(), Fail> {
    assert!(rt; is_as_told(rt.alloc(), &WRAPS_18)?);
    Ok(())
}
