//! Runs, as far as they are a CU-UP's, and each reason for which it drops and holds. What it should put out was worked out by another
//! implementation of the procedures.

use crate::steps::{BEARER, CP, Call, DU, PEER, Put, UE, is_as_told};
use gnb_types::inputs::Order;
use gnb_types::names::{Dir, Gnb, NodeId};
use gnb_types::outputs::Tag;
use gnb_types::reasons::{DropReason, HeldReason, RefuseReason};
use std::test::Fail;

/// The context of terminal 1 is set up: instance 1, bearer 1 with four blocks in each direction.
const SET_UP: Call = Call::Give(CP, "020101000000");

const WAS_SET_UP: &[Put] = &[
    Put::Opened(1),
    Put::Opened(2),
    Put::Say(1, "12010102010000"),
];

/// The same as a target, with two forwarding tunnels.
pub const SET_UP_TARGET: Call = Call::Give(CP, "020101000001");

pub const WAS_SET_UP_TARGET: &[Put] = &[
    Put::Opened(1),
    Put::Opened(2),
    Put::Opened(3),
    Put::Opened(4),
    Put::Say(1, "12010102010304"),
];

/// The downlink goes to tunnel 7 of the DU, where it begins with a report.
const SWITCH: Call = Call::Give(CP, "0301020107");

#[rattlefmt::skip]
const WAS_SWITCHED: &[Put] = &[
    Put::Packet(DU, 7, Dir::Dl, Tag::Absent, "34FF0011000000070000008402000000000000000000000000"),
    Put::Say(1, "13010200"),
];

/// The request of the E1 Setup is put until it is answered, once.
const STARTS: [(Call, &[Put]); 7] = [
    (Call::Order(Order::Start), &[Put::Say(0, "0101412E757031")]),
    (Call::Tick, &[Put::Say(0, "0101412E757031")]),
    (Call::Tick, &[Put::Say(0, "0101412E757031")]),
    (Call::Give(CP, "1101"), &[]),
    (Call::Tick, &[]),
    (Call::Order(Order::Start), &[]),
    // It is answered no more.
    (Call::Give(CP, "1101"), &[Put::Drop(DropReason::Stale)]),
];

/// One context, two TEIDs, the same reply each time; a second context for the terminal is refused, and a late request is stale.
#[rattlefmt::skip]
const SET_UP_THREE_TIMES: [(Call, &[Put]); 9] = [
    (SET_UP, WAS_SET_UP),
    (Call::Give(CP, "020101000000"), &[Put::Say(1, "12010102010000")]),
    (Call::Give(CP, "020101000000"), &[Put::Say(1, "12010102010000")]),
    (Call::Give(CP, "020102000000"), &[Put::Say(1, "22010201")]),
    // Another terminal gets further TEIDs.
    (Call::Give(CP, "020201000000"), &[Put::Opened(3), Put::Opened(4), Put::Say(2, "12020104030000")]),
    (Call::Give(CP, "020101000000"), &[Put::Drop(DropReason::Stale)]),
    (Call::Give(CP, "05010301"), &[Put::Say(1, "140103"), Put::Closed(1), Put::Closed(2)]),
    (Call::Give(CP, "05010301"), &[Put::Say(1, "140103")]),
    // Nothing of it is left.
    (Call::Packet(1, "30FF00010000000145"), &[Put::Drop(DropReason::NoTunnel)]),
];

/// A target with forwarding tunnels: it goes on where the source stands, and serves once the terminal arrived.
#[rattlefmt::skip]
const ARRIVES: [(Call, &[Put]); 21] = [
    (SET_UP_TARGET, WAS_SET_UP_TARGET),
    // Nothing is known before the SN status.
    (Call::Packet(1, "30FF00010000000145"), &[Put::Held(HeldReason::NoStatus)]),
    (Call::Packet(3, "34FF000900000003000000C00100000045"), &[Put::Held(HeldReason::NoStatus)]),
    (Call::Give(CP, "0301020201000000"), &[Put::Say(1, "13010200")]),
    // A second one.
    (Call::Give(CP, "0301030201000000"), &[Put::Drop(DropReason::Unexpected)]),
    (Call::Packet(3, "34FF000900000003000000C00100000045"), &[Put::Held(HeldReason::NotArrived)]),
    (Call::Give(CP, "0301040107"), &[Put::Packet(DU, 7, Dir::Dl, Tag::Absent, "34FF0011000000070000008402000000000000000000000001"), Put::Say(1, "13010400")]),
    (Call::Packet(3, "34FF000900000003000000C00100000045"), &[Put::Packet(DU, 7, Dir::Dl, Tag::Same, "34FF000F00000007000000840200000000010000800045")]),
    // Once more, and one whose COUNT the source never gave.
    (Call::Packet(3, "34FF000900000003000000C00100000045"), &[Put::Drop(DropReason::Duplicate)]),
    (Call::Packet(3, "34FF000900000003000000C00100090045"), &[Put::Drop(DropReason::Duplicate)]),
    // What comes from the core waits for what the source forwards.
    (Call::Packet(1, "30FF00010000000146"), &[Put::Held(HeldReason::Early)]),
    (Call::Packet(3, "30FF00010000000347"), &[Put::Packet(DU, 7, Dir::Dl, Tag::Own(2), "34FF000F00000007000000840200000000020000800247")]),
    (Call::Packet(3, "30FE000000000003"), &[]),
    (Call::Packet(3, "30FE000000000003"), &[Put::Drop(DropReason::Unexpected)]),
    (Call::Packet(1, "30FF00010000000146"), &[Put::Packet(DU, 7, Dir::Dl, Tag::Own(3), "34FF000F00000007000000840200000000030000800346")]),
    (Call::Packet(4, "34FF000900000004000000C00100010061"), &[Put::Deliver(1, "61")]),
    (Call::Packet(2, "30FF000300000002800262"), &[Put::Deliver(2, "62")]),
    (Call::Packet(2, "30FF000300000002800161"), &[Put::Drop(DropReason::Duplicate)]),
    (Call::Give(CP, "05010500"), &[Put::Say(1, "140105")]),
    (Call::Packet(4, "30FE000000000004"), &[]),
    (Call::Packet(2, "30FE000000000002"), &[Put::Closed(2)]),
];

/// A source that freezes, and goes on: all goes to the target meanwhile.
#[rattlefmt::skip]
const FREEZES: [(Call, &[Put]); 16] = [
    (SET_UP, WAS_SET_UP),
    (Call::Packet(1, "30FF00010000000145"), &[]),
    (
        Call::Give(CP, "0301020107"),
        &[
            Put::Packet(
                DU,
                7,
                Dir::Dl,
                Tag::Absent,
                "34FF0011000000070000008402000000000000000000000000",
            ),
            Put::Packet(
                DU,
                7,
                Dir::Dl,
                Tag::Own(0),
                "34FF000F00000007000000840200000000010000800045",
            ),
            Put::Say(1, "13010200"),
        ],
    ),
    (Call::Packet(1, "30FF00010000000146"), &[Put::Packet(DU, 7, Dir::Dl, Tag::Own(1), "34FF000F00000007000000840200000000020000800146")]),
    (Call::Packet(2, "30FF000300000002800061"), &[Put::Deliver(0, "61")]),
    (Call::Packet(2, "30FF000300000002800263"), &[]),
    (
        Call::Give(CP, "03010301010809"),
        &[
            Put::Packet(
                PEER,
                8,
                Dir::Dl,
                Tag::Own(0),
                "34FF000900000008000000C00100000045",
            ),
            Put::Packet(
                PEER,
                8,
                Dir::Dl,
                Tag::Own(1),
                "34FF000900000008000000C00100010046",
            ),
            Put::Packet(
                PEER,
                9,
                Dir::Ul,
                Tag::Own(2),
                "34FF000900000009000000C00100020063",
            ),
            Put::Say(1, "130103000201"),
        ],
    ),
    (Call::Give(CP, "03010301010809"), &[Put::Say(1, "130103000201")]),
    (Call::Give(CP, "03010401010809"), &[Put::Drop(DropReason::Unexpected)]),
    (Call::Packet(1, "30FF00010000000147"), &[Put::Packet(PEER, 8, Dir::Dl, Tag::Absent, "30FF00010000000847")]),
    (Call::Packet(2, "30FF000300000002800162"), &[Put::Packet(PEER, 9, Dir::Ul, Tag::Same, "34FF000900000009000000C00100010062")]),
    (Call::Order(Order::Poll(UE, BEARER)), &[Put::No(RefuseReason::NoRadio)]),
    (
        Call::Give(CP, "03010504"),
        &[
            Put::Deliver(1, "62"),
            Put::Deliver(2, "63"),
            Put::Packet(
                DU,
                7,
                Dir::Dl,
                Tag::Own(2),
                "34FF000F00000007000000840200000000030000800247",
            ),
            Put::Say(1, "13010500"),
        ],
    ),
    (Call::Give(CP, "03010604"), &[Put::Drop(DropReason::Unexpected)]),
    (Call::Order(Order::Poll(UE, BEARER)), &[Put::Packet(DU, 7, Dir::Dl, Tag::Absent, "34FF000C00000007000000840201000000040000")]),
    // A further uplink.
    (Call::Give(CP, "03010700"), &[Put::Opened(3), Put::Say(1, "13010703")]),
];

/// A frozen context that is released passes on what still comes, and ends with its tunnels.
#[rattlefmt::skip]
const RELEASES: [(Call, &[Put]); 11] = [
    (SET_UP, WAS_SET_UP),
    (SWITCH, WAS_SWITCHED),
    (Call::Packet(1, "30FF00010000000145"), &[Put::Packet(DU, 7, Dir::Dl, Tag::Own(0), "34FF000F00000007000000840200000000010000800045")]),
    (Call::Give(CP, "03010301010809"), &[Put::Packet(PEER, 8, Dir::Dl, Tag::Own(0), "34FF000900000008000000C00100000045"), Put::Say(1, "130103000100")]),
    (Call::Give(CP, "05010400"), &[Put::Say(1, "140104")]),
    (Call::Packet(1, "30FF00010000000146"), &[Put::Packet(PEER, 8, Dir::Dl, Tag::Absent, "30FF00010000000846")]),
    (Call::Give(CP, "03010500"), &[Put::Drop(DropReason::Unexpected)]),
    (Call::Give(CP, "0301060107"), &[Put::Drop(DropReason::Unexpected)]),
    (Call::Packet(1, "30FE000000000001"), &[Put::Packet(PEER, 8, Dir::Dl, Tag::Absent, "30FE000000000008"), Put::Closed(1)]),
    (Call::Packet(2, "30FE000000000002"), &[Put::Closed(2), Put::Packet(PEER, 9, Dir::Ul, Tag::Absent, "30FE000000000009")]),
    (Call::Packet(2, "30FE000000000002"), &[Put::Drop(DropReason::NoTunnel)]),
];

/// A target whose terminal arrived before its SN status is busy.
const IS_BUSY: [(Call, &[Put]); 3] = [
    (SET_UP_TARGET, WAS_SET_UP_TARGET),
    (Call::Give(CP, "0301020107"), &[Put::Say(1, "13010200")]),
    (Call::Give(CP, "03010301010809"), &[Put::Say(1, "23010301")]),
];

/// The DU tells a loss: all that nothing confirmed is sent again, and what it confirms is given up.
#[rattlefmt::skip]
const LOSES: [(Call, &[Put]); 10] = [
    (SET_UP, WAS_SET_UP),
    (SWITCH, WAS_SWITCHED),
    (Call::Packet(1, "30FF00010000000145"), &[Put::Packet(DU, 7, Dir::Dl, Tag::Own(0), "34FF000F00000007000000840200000000010000800045")]),
    (Call::Packet(1, "30FF00010000000146"), &[Put::Packet(DU, 7, Dir::Dl, Tag::Own(1), "34FF000F00000007000000840200000000020000800146")]),
    (
        Call::Packet(
            2,
            "34FF0014000000020000008404110000010000010000000000000000",
        ),
        &[
            Put::Packet(
                DU,
                7,
                Dir::Dl,
                Tag::Own(0),
                "34FF000F00000007000000840200010000030000800045",
            ),
            Put::Packet(
                DU,
                7,
                Dir::Dl,
                Tag::Own(1),
                "34FF000F00000007000000840200000000040000800146",
            ),
        ],
    ),
    (Call::Packet(2, "34FF00100000000200000084031400000100000000010000"), &[]),
    (Call::Order(Order::Poll(UE, BEARER)), &[Put::No(RefuseReason::Empty)]),
    (Call::Packet(1, "30FF00010000000147"), &[Put::Packet(DU, 7, Dir::Dl, Tag::Own(2), "34FF000F00000007000000840200000000050000800247")]),
    (Call::Order(Order::Poll(UE, BEARER)), &[Put::Packet(DU, 7, Dir::Dl, Tag::Absent, "34FF000C00000007000000840201000000060000")]),
    (Call::Packet(2, "30FF0005000000020000000003"), &[]),
];

/// Four packets of the quota: a fifth stays where it is, and so does one ahead of the window.
#[rattlefmt::skip]
const HOLDS: [(Call, &[Put]); 16] = [
    (SET_UP, WAS_SET_UP),
    (SWITCH, WAS_SWITCHED),
    (Call::Packet(1, "30FF00010000000140"), &[Put::Packet(DU, 7, Dir::Dl, Tag::Own(0), "34FF000F00000007000000840200000000010000800040")]),
    (Call::Packet(1, "30FF00010000000141"), &[Put::Packet(DU, 7, Dir::Dl, Tag::Own(1), "34FF000F00000007000000840200000000020000800141")]),
    (Call::Packet(1, "30FF00010000000142"), &[Put::Packet(DU, 7, Dir::Dl, Tag::Own(2), "34FF000F00000007000000840200000000030000800242")]),
    (Call::Packet(1, "30FF00010000000143"), &[Put::Packet(DU, 7, Dir::Dl, Tag::Own(3), "34FF000F00000007000000840200000000040000800343")]),
    (Call::Packet(1, "30FF00010000000144"), &[Put::Held(HeldReason::Quota)]),
    (Call::Packet(2, "30FF000300000002800465"), &[Put::Held(HeldReason::Ahead)]),
    (Call::Packet(2, "30FF000300000002800161"), &[]),
    (Call::Packet(2, "30FF000300000002800262"), &[]),
    (Call::Packet(2, "30FF000300000002800363"), &[]),
    (Call::Packet(2, "34FF00100000000200000084031400000100000000030000"), &[]),
    (Call::Packet(1, "30FF00010000000144"), &[Put::Packet(DU, 7, Dir::Dl, Tag::Own(4), "34FF000F00000007000000840200000000050000800444")]),
    (Call::Packet(2, "30FF000300000002800060"), &[Put::Deliver(0, "60"), Put::Deliver(1, "61"), Put::Deliver(2, "62"), Put::Deliver(3, "63")]),
    (Call::Packet(2, "30FF000300000002800465"), &[Put::Deliver(4, "65")]),
    (Call::Packet(2, "30FF000300000002800060"), &[Put::Drop(DropReason::Duplicate)]),
];

/// 8,192 blocks for all contexts: what fits them is set up.
#[rattlefmt::skip]
const HAS_NO_BLOCKS: [(Call, &[Put]); 9] = [
    // 4,084 blocks in each direction.
    (Call::Give(CP, "02010100FF00"), &[Put::Opened(1), Put::Opened(2), Put::Say(1, "12010102010000")]),
    (Call::Give(CP, "020201000000"), &[Put::Opened(3), Put::Opened(4), Put::Say(2, "12020104030000")]),
    // 20 in each are too many, 4 are not.
    (Call::Give(CP, "020301000100"), &[Put::Say(3, "22030100")]),
    (Call::Give(CP, "020302000000"), &[Put::Opened(5), Put::Opened(6), Put::Say(3, "12030206050000")]),
    (Call::Give(CP, "020401000000"), &[Put::Opened(7), Put::Opened(8), Put::Say(4, "12040108070000")]),
    // All 8,192 are reserved.
    (Call::Give(CP, "020501000000"), &[Put::Say(5, "22050100")]),
    (Call::Give(CP, "05010201"), &[Put::Say(1, "140102"), Put::Closed(1), Put::Closed(2)]),
    // Two bearers.
    (Call::Give(CP, "020502010000"), &[Put::Opened(9), Put::Opened(10), Put::Opened(11), Put::Opened(12), Put::Say(5, "12050200000000")]),
    // A switch names all bearers.
    (Call::Give(CP, "0305030107"), &[Put::Drop(DropReason::Unexpected)]),
];

/// After all of them the context is as it was.
#[rattlefmt::skip]
const DROPPED: [(Call, &[Put]); 27] = [
    (Call::Packet(1, "00"), &[Put::Drop(DropReason::NoTunnel)]),
    (Call::Give(CP, "03010100"), &[Put::Drop(DropReason::NoContext)]),
    (Call::Give(CP, "0301020107"), &[Put::Drop(DropReason::NoContext)]),
    (Call::Give(CP, "03010301010809"), &[Put::Drop(DropReason::NoContext)]),
    (Call::Give(CP, "0301040201000000"), &[Put::Drop(DropReason::NoContext)]),
    (Call::Give(CP, "03010504"), &[Put::Drop(DropReason::NoContext)]),
    (Call::Give(CP, "03010609"), &[Put::Drop(DropReason::NoContext)]),
    // A release is answered all the same.
    (Call::Give(CP, "05010701"), &[Put::Say(1, "140107")]),
    (Call::Give(CP, "020108000000"), &[Put::Opened(1), Put::Opened(2), Put::Say(1, "12010802010000")]),
    // Octets that say nothing.
    (Call::Packet(1, "00"), &[Put::Drop(DropReason::Undecodable)]),
    (Call::Packet(2, "00"), &[Put::Drop(DropReason::Undecodable)]),
    (Call::Give(CP, ""), &[Put::Drop(DropReason::Undecodable)]),
    (Call::Give(CP, "00"), &[Put::Drop(DropReason::Criticality)]),
    // A reply that isn't awaited, and modes that lack something, or that nothing stands for.
    (Call::Give(CP, "1101"), &[Put::Drop(DropReason::Stale)]),
    (Call::Give(CP, "03010901"), &[Put::Drop(DropReason::Unexpected)]),
    (Call::Give(CP, "03010A02"), &[Put::Drop(DropReason::Unexpected)]),
    (Call::Give(CP, "03010B03"), &[Put::Drop(DropReason::Unexpected)]),
    (Call::Give(CP, "03010C09"), &[Put::Drop(DropReason::Unexpected)]),
    // A status of a context that is no target, and a resume of one that isn't frozen.
    (Call::Give(CP, "03010D0201000000"), &[Put::Drop(DropReason::Unexpected)]),
    (Call::Give(CP, "03010E04"), &[Put::Drop(DropReason::Unexpected)]),
    // Nodes that share no interface with it, whatever they say.
    (Call::Give(NodeId::CuCp(Gnb::B), "020201000000"), &[Put::Drop(DropReason::Unexpected)]),
    (Call::Give(DU, "00"), &[Put::Drop(DropReason::Unexpected)]),
    // Inputs of kinds that it never takes.
    (Call::Offer("45"), &[Put::Drop(DropReason::Unexpected)]),
    (Call::Order(Order::Release(UE)), &[Put::Drop(DropReason::Unexpected)]),
    // An End Marker of N3 that leads to no target.
    (Call::Packet(1, "30FE000000000001"), &[Put::Drop(DropReason::Unexpected)]),
    (Call::Order(Order::Poll(UE, BEARER)), &[Put::No(RefuseReason::Empty)]),
    (Call::Give(CP, "05010F01"), &[Put::Say(1, "14010F"), Put::Closed(1), Put::Closed(2)]),
];

#[test]
fn sets_up_e1_once(rt: HostRuntime) -> Result<(), Fail> {
    assert!(rt; is_as_told(rt.alloc(), &STARTS)?);
    Ok(())
}

#[test]
fn a_setup_that_comes_three_times(rt: HostRuntime) -> Result<(), Fail> {
    assert!(rt; is_as_told(rt.alloc(), &SET_UP_THREE_TIMES)?);
    Ok(())
}

#[test]
fn serves_a_target(rt: HostRuntime) -> Result<(), Fail> {
    assert!(rt; is_as_told(rt.alloc(), &ARRIVES)?);
    Ok(())
}

#[test]
fn freezes_and_goes_on(rt: HostRuntime) -> Result<(), Fail> {
    assert!(rt; is_as_told(rt.alloc(), &FREEZES)?);
    Ok(())
}

#[test]
fn passes_on_what_still_comes(rt: HostRuntime) -> Result<(), Fail> {
    assert!(rt; is_as_told(rt.alloc(), &RELEASES)?);
    Ok(())
}

#[test]
fn is_busy_before_the_status(rt: HostRuntime) -> Result<(), Fail> {
    assert!(rt; is_as_told(rt.alloc(), &IS_BUSY)?);
    Ok(())
}

#[test]
fn sends_again(rt: HostRuntime) -> Result<(), Fail> {
    assert!(rt; is_as_told(rt.alloc(), &LOSES)?);
    Ok(())
}

#[test]
fn holds_what_has_no_room(rt: HostRuntime) -> Result<(), Fail> {
    assert!(rt; is_as_told(rt.alloc(), &HOLDS)?);
    Ok(())
}

#[test]
fn refuses_what_fits_no_blocks(rt: HostRuntime) -> Result<(), Fail> {
    assert!(rt; is_as_told(rt.alloc(), &HAS_NO_BLOCKS)?);
    Ok(())
}

#[test]
fn drops(rt: HostRuntime) -> Result<(), Fail> {
    assert!(rt; is_as_told(rt.alloc(), &DROPPED)?);
    Ok(())
}
