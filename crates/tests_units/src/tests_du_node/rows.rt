//! Worked runs, as far as they are a DU's, and each reason for which it drops. The octets of packets were worked out by hand.

use crate::tests_du_node::steps::{CP, Call, Put, U1, UE, UP, is_as_told};
use gnb_types::inputs::Order;
use gnb_types::names::{Dir, Gnb, NodeId};
use gnb_types::outputs::Tag;
use gnb_types::reasons::DropReason;

const NOTHING: &[Put] = &[];

/// The context of terminal 1 is set up: instance 1, epoch 1, bearer 1 with the uplink TEID 2.
const SET_UP: Call = Call::Give(CP, "020101010102");

const WAS_SET_UP: &[Put] = &[Put::Opened(1), Put::Say(CP, 1, "1201010101")];

/// The same with instance 2.
const SET_UP_ANEW: Call = Call::Give(CP, "020102010102");

/// It is modified: instance 2, epoch 2. The old tunnel is closed, and a new one opened.
const RENEW: Call = Call::Give(CP, "03010202");

const WAS_RENEWED: &[Put] = &[
    Put::Closed(1),
    Put::Opened(2),
    Put::Say(CP, 1, "1301020102"),
];

/// It is released: instance 2.
const RELEASE: Call = Call::Give(CP, "040102");

/// It is answered, the uplink is ended, and the tunnel is closed.
const WAS_RELEASED: &[Put] = &[
    Put::Say(CP, 1, "140102"),
    Put::Packet(2, Dir::Ul, Tag::Absent, "30FE000000000002"),
    Put::Closed(1),
];

/// One context, one TEID, the same reply each time; and none of that once it was released.
const SET_UP_THREE_TIMES: [(Call, &[Put]); 7] = [
    (SET_UP, WAS_SET_UP),
    (SET_UP, &[Put::Say(CP, 1, "1201010101")]),
    (SET_UP, &[Put::Say(CP, 1, "1201010101")]),
    // Another terminal gets the second TEID.
    (
        Call::Give(CP, "020201010104"),
        &[Put::Opened(2), Put::Say(CP, 2, "1202010102")],
    ),
    (RELEASE, WAS_RELEASED),
    (RELEASE, &[Put::Say(CP, 1, "140102")]),
    (SET_UP, &[Put::Drop(DropReason::Stale)]),
];

/// F1 Setup, and a terminal that attaches: a command, its arrival, and that it is accepted.
#[rattlefmt::skip]
const ATTACH: [(Call, &[Put]); 9] = [
    (Call::Order(Order::Start), &[Put::Say(CP, 0, "0101412E647531")]),
    // The request is put again until it is answered.
    (Call::Tick, &[Put::Say(CP, 0, "0101412E647531")]),
    (Call::Give(CP, "1101"), NOTHING),
    (Call::Tick, NOTHING),
    (Call::Order(Order::Start), NOTHING),
    (SET_UP, WAS_SET_UP),
    (Call::Give(CP, "05010400010101"), &[Put::Say(U1, 1, "00010101")]),
    (Call::Give(U1, "20010100"), &[Put::Say(CP, 1, "060120010100")]),
    (Call::Give(CP, "05010460010100"), &[Put::Say(U1, 1, "60010100")]),
];

/// A terminal whose radio failed comes back.
#[rattlefmt::skip]
const RETURN: [(Call, &[Put]); 9] = [
    (SET_UP, WAS_SET_UP),
    (Call::Packet(1, "34FF000F00000001000000840200000000000000800001"), &[Put::Radio(1, "800001")]),
    (Call::Give(U1, "40010200"), &[Put::Say(CP, 1, "060140010200")]),
    (RENEW, WAS_RENEWED),
    (Call::Give(CP, "05010460010200"), &[Put::Say(U1, 1, "60010200")]),
    // The old tunnel is there no longer.
    (Call::Packet(1, "34FF000F00000001000000840200000000000000800001"), &[Put::Drop(DropReason::NoTunnel)]),
    (Call::Packet(2, "34FF0011000000020000008402000000000000000000000000"), &[Put::Radio(2, "0000000000")]),
    (Call::Packet(2, "34FF000F00000002000000840200000000010000800001"), &[Put::Radio(2, "800001")]),
    (Call::Air(Dir::Ul, "800003"), &[Put::Packet(2, Dir::Ul, Tag::Same, "30FF000300000002800003")]),
];

/// The DU that a terminal never reached.
#[rattlefmt::skip]
const MISSED_ACCESS: [(Call, &[Put]); 6] = [
    (SET_UP, WAS_SET_UP),
    (Call::Give(CP, "05010400010101"), &[Put::Say(U1, 1, "00010101")]),
    (Call::Tick, NOTHING),
    (RELEASE, WAS_RELEASED),
    (Call::Packet(1, "34FF000F00000001000000840200000000000000800001"), &[Put::Drop(DropReason::NoTunnel)]),
    (Call::Air(Dir::Ul, "800003"), &[Put::Drop(DropReason::NoContext)]),
];

/// The first of two frames is lost: the loss is told, what is in the gap is dropped, and all is put again.
#[rattlefmt::skip]
const LOST_FRAME: [(Call, &[Put]); 5] = [
    (SET_UP, WAS_SET_UP),
    (
        Call::Packet(1, "34FF000F00000001000000840200000000010000800102"),
        &[
            Put::Packet(
                2,
                Dir::Dl,
                Tag::Absent,
                "34FF0014000000020000008404110000010000010000000000000000",
            ),
            Put::Drop(DropReason::Gap),
        ],
    ),
    // Frames in the gap aren't put on the radio either.
    (Call::Packet(1, "34FF000F00000001000000840200000000020000800203"), &[Put::Drop(DropReason::Gap)]),
    (Call::Packet(1, "34FF000F00000001000000840200010000030000800001"), &[Put::Radio(1, "800001")]),
    (Call::Packet(1, "34FF000F00000001000000840200000000040000800102"), &[Put::Radio(1, "800102")]),
];

/// The one frame is lost, and a poll shows it.
const LOST_FRAME_AND_POLL: [(Call, &[Put]); 3] = [
    (SET_UP, WAS_SET_UP),
    (
        Call::Packet(1, "34FF000C00000001000000840201000000010000"),
        &[Put::Packet(
            2,
            Dir::Dl,
            Tag::Absent,
            "34FF0014000000020000008404110000010000010000000000000000",
        )],
    ),
    (
        Call::Packet(1, "34FF000F00000001000000840200010000020000800001"),
        &[Put::Radio(1, "800001")],
    ),
];

/// What the radio confirms is told; a poll is lost after that: the gap lasts until the next packet.
#[rattlefmt::skip]
const CONFIRMED: [(Call, &[Put]); 5] = [
    (SET_UP, WAS_SET_UP),
    (Call::Packet(1, "34FF000F00000001000000840200000000000000800001"), &[Put::Radio(1, "800001")]),
    (Call::Ack(Dir::Dl, "800001"), &[Put::Packet(2, Dir::Dl, Tag::Same, "34FF00100000000200000084031400000100000000000000")]),
    (
        Call::Packet(1, "34FF000C00000001000000840201000000020000"),
        &[Put::Packet(
            2,
            Dir::Dl,
            Tag::Absent,
            "34FF0014000000020000008404110000010000010000010000010000",
        )],
    ),
    (Call::Packet(1, "34FF000F00000001000000840200010000030000800102"), &[Put::Radio(1, "800102")]),
];

#[rattlefmt::skip]
const WITHOUT_CONTEXT: [(Call, &[Put]); 7] = [
    (Call::Air(Dir::Ul, "800045"), &[Put::Drop(DropReason::NoContext)]),
    (Call::Ack(Dir::Dl, "800045"), &[Put::Drop(DropReason::NoContext)]),
    (RENEW, &[Put::Drop(DropReason::NoContext)]),
    (Call::Give(CP, "05010460010200"), &[Put::Drop(DropReason::NoContext)]),
    (Call::Give(U1, "40010200"), &[Put::Drop(DropReason::NoContext)]),
    (Call::Packet(1, "34FF000F00000001000000840200000000000000800045"), &[Put::Drop(DropReason::NoTunnel)]),
    // A release is answered all the same.
    (Call::Give(CP, "040103"), &[Put::Say(CP, 1, "140103")]),
];

/// After all of them the context is as it was.
#[rattlefmt::skip]
const DROPPED: [(Call, &[Put]); 22] = [
    (SET_UP_ANEW, &[Put::Opened(1), Put::Say(CP, 1, "1201020101")]),
    // Octets that say nothing.
    (Call::Packet(2, "00"), &[Put::Drop(DropReason::NoTunnel)]),
    (Call::Packet(1, "00"), &[Put::Drop(DropReason::Undecodable)]),
    (Call::Air(Dir::Ul, "00"), &[Put::Drop(DropReason::Undecodable)]),
    (Call::Give(CP, ""), &[Put::Drop(DropReason::Undecodable)]),
    (Call::Give(U1, "01010200"), &[Put::Drop(DropReason::Undecodable)]),
    (Call::Give(CP, "00"), &[Put::Drop(DropReason::Criticality)]),
    // An older request, and a reply that isn't awaited.
    (SET_UP, &[Put::Drop(DropReason::Stale)]),
    (Call::Give(CP, "1101"), &[Put::Drop(DropReason::Stale)]),
    // Uplinks that aren't those of the first bearers.
    (Call::Give(CP, "020103010202"), &[Put::Drop(DropReason::Unexpected)]),
    // Nodes that share no interface with it, whatever they say.
    (Call::Give(NodeId::CuCp(Gnb::B), "020103010102"), &[Put::Drop(DropReason::Unexpected)]),
    (Call::Give(UP, "020103010102"), &[Put::Drop(DropReason::Unexpected)]),
    (Call::Give(NodeId::Du(Gnb::A, 2), "00"), &[Put::Drop(DropReason::Unexpected)]),
    // A token of the CU-CP, a message of F1AP of a terminal, a token of another terminal.
    (Call::Give(CP, "60010200"), &[Put::Drop(DropReason::Unexpected)]),
    (Call::Give(U1, "020103010102"), &[Put::Drop(DropReason::Unexpected)]),
    (Call::Give(NodeId::Ue(2), "40010200"), &[Put::Drop(DropReason::Unexpected)]),
    // Inputs of kinds that it never takes.
    (Call::Air(Dir::Dl, "800045"), &[Put::Drop(DropReason::Unexpected)]),
    (Call::Ack(Dir::Ul, "800045"), &[Put::Drop(DropReason::Unexpected)]),
    (Call::Offer("45"), &[Put::Drop(DropReason::Unexpected)]),
    (Call::Order(Order::Release(UE)), &[Put::Drop(DropReason::Unexpected)]),
    (Call::Packet(1, "34FF000F00000001000000840200000000000000800001"), &[Put::Radio(1, "800001")]),
    (Call::Give(CP, "040104"), &[Put::Say(CP, 1, "140104"), Put::Packet(2, Dir::Ul, Tag::Absent, "30FE000000000002"), Put::Closed(1)]),
];

#[test]
fn runs(rt: HostRuntime) {
    let alloc = rt.alloc();
    assert!(rt;
        is_as_told(alloc, &SET_UP_THREE_TIMES),
        "a setup that comes three times"
    );
    assert!(rt; is_as_told(alloc, &ATTACH), "serves an attach");
    assert!(rt; is_as_told(alloc, &RETURN), "serves a return");
    assert!(rt; is_as_told(alloc, &MISSED_ACCESS), "is not accessed");
    assert!(rt; is_as_told(alloc, &LOST_FRAME), "a frame is lost");
    assert!(rt;
        is_as_told(alloc, &LOST_FRAME_AND_POLL),
        "a poll shows a loss"
    );
    assert!(rt; is_as_told(alloc, &CONFIRMED), "tells what is confirmed");
    assert!(rt;
        is_as_told(alloc, &WITHOUT_CONTEXT),
        "drops without a context"
    );
    assert!(rt; is_as_told(alloc, &DROPPED), "drops");
}
