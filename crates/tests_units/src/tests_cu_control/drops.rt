//! Each reason for which a CU-CP drops its input. It is left as it was.

use crate::tests_cu_control::steps::{Call, DU, OTHER, Put, THERE, UE, UP, is_as_told};
use gnb_types::inputs::Order;
use gnb_types::names::{BearerId, Gnb, NodeId};
use gnb_types::reasons::DropReason;
use unit_defs::StateName;

const NOTHING: &[Put] = &[];

const UNEXPECTED: &[Put] = &[Put::Drop(DropReason::Unexpected)];

/// What is dropped for the message that it is, or isn't.
#[rattlefmt::skip]
const MESSAGES: [(Call, &[Put]); 15] = [
    // No terminal is served: what relays a token, whatever it is.
    (Call::Give(DU, "01020101"), &[Put::Drop(DropReason::NoContext)]),
    (Call::Place, NOTHING),
    // Octets that are no message, and a message with an element that it must know.
    (Call::Give(DU, ""), &[Put::Drop(DropReason::Undecodable)]),
    (Call::Give(OTHER, "000000"), &[Put::Drop(DropReason::Undecodable)]),
    (Call::Give(UP, "00"), &[Put::Drop(DropReason::Criticality)]),
    // Nodes that share no interface with it, whatever they say.
    (Call::Give(NodeId::Du(Gnb::B, 1), "00"), UNEXPECTED),
    (Call::Give(NodeId::CuUp(Gnb::B, 1), "00"), UNEXPECTED),
    (Call::Give(NodeId::CuCp(Gnb::A), "00"), UNEXPECTED),
    (Call::Give(NodeId::Ue(1), "00"), UNEXPECTED),
    // Replies that nobody awaits.
    (Call::Give(UP, "230101"), &[Put::Drop(DropReason::Stale)]),
    (Call::Give(NodeId::Core, "410101"), &[Put::Drop(DropReason::Stale)]),
    // A cancel of nothing is confirmed, and again; an older one is not.
    (Call::Give(OTHER, "350102"), &[Put::Say(OTHER, 1, "370102")]),
    (Call::Give(OTHER, "350102"), &[Put::Say(OTHER, 1, "370102")]),
    (Call::Give(OTHER, "350101"), &[Put::Drop(DropReason::Stale)]),
    (Call::Look(StateName::Serving, None, true), NOTHING),
];

/// What is dropped for what it says, or for the kind of input that it is.
const INPUTS: [(Call, &[Put]); 19] = [
    (Call::Place, NOTHING),
    // No token; that of another terminal; an epoch that is neither accepted nor next.
    (Call::Give(DU, "01050101"), UNEXPECTED),
    (Call::Give(DU, "01020201"), UNEXPECTED),
    (Call::Give(DU, "01030103"), UNEXPECTED),
    (Call::Give(DU, "01020102"), UNEXPECTED),
    // By way of another DU it doesn't return.
    (Call::Give(NodeId::Du(Gnb::A, 2), "01030102"), UNEXPECTED),
    // Inputs of kinds that it never takes.
    (Call::Packet, UNEXPECTED),
    (Call::Air, UNEXPECTED),
    (Call::Ack, UNEXPECTED),
    (Call::Offer, UNEXPECTED),
    (Call::Order(Order::Start), UNEXPECTED),
    (Call::Order(Order::Arrive(UE)), UNEXPECTED),
    (Call::Order(Order::Return(UE)), UNEXPECTED),
    (Call::Order(Order::Fail(UE)), UNEXPECTED),
    (Call::Order(Order::Poll(UE, BearerId(1))), UNEXPECTED),
    (Call::Look(StateName::Serving, None, true), NOTHING),
    // It was prepared there, and comes back too early.
    (
        Call::Order(Order::Handover(THERE)),
        &[Put::Say(OTHER, 1, "31010102")],
    ),
    (Call::Give(OTHER, "320101"), &[Put::Say(UP, 1, "23010102")]),
    (Call::Give(DU, "01030102"), &[Put::Drop(DropReason::Busy)]),
];

#[test]
fn drops(rt: HostRuntime) {
    let alloc = rt.alloc();
    assert!(rt; is_as_told(alloc, &MESSAGES));
    assert!(rt; is_as_told(alloc, &INPUTS));
}
