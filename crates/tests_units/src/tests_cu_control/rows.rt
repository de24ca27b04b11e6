//! Worked runs, as far as they are a CU-CP's. The instances and epochs of what it says were worked out by hand.

use crate::tests_cu_control::steps::{Call, DU, HERE, OTHER, Put, THERE, UE, UP, is_as_told};
use gnb_types::inputs::Order;
use gnb_types::names::NodeId;
use gnb_types::reasons::{CauseName, DropReason, RefuseReason};
use unit_defs::StateName;

const NOTHING: &[Put] = &[];

/// A DU and a CU-UP are set up, each once; a terminal attaches, and is released.
#[rattlefmt::skip]
const ATTACH: [(Call, &[Put]); 20] = [
    (Call::Order(Order::Attach(HERE)), &[Put::No(RefuseReason::NotStarted)]),
    (Call::Give(DU, "110001"), &[Put::Say(DU, 0, "110001")]),
    (Call::Give(UP, "210001"), &[Put::Say(UP, 0, "210001")]),
    // Its newest request again is answered again, an older one is not.
    (Call::Give(DU, "110001"), &[Put::Say(DU, 0, "110001")]),
    (Call::Give(DU, "110000"), &[Put::Drop(DropReason::Stale)]),
    (Call::Order(Order::Attach(HERE)), &[Put::Say(UP, 1, "220101")]),
    // The request is put again until it is answered.
    (Call::Tick, &[Put::Say(UP, 1, "220101")]),
    (Call::Look(StateName::Attaching, None, false), NOTHING),
    (Call::Give(UP, "220101"), &[Put::Say(DU, 1, "12010101")]),
    // The command of epoch 1, and again at each tick.
    (Call::Give(DU, "120101"), &[Put::Say(DU, 1, "1501010101")]),
    (Call::Tick, &[Put::Say(DU, 1, "1501010101")]),
    // It arrived: the switch, and the path switch.
    (Call::Give(DU, "01020101"), &[Put::Say(UP, 1, "23010201"), Put::Say(NodeId::Core, 1, "410101")]),
    (Call::Give(UP, "230102"), &[Put::Say(DU, 1, "1501040101")]),
    (Call::Give(NodeId::Core, "410101"), NOTHING),
    (Call::Look(StateName::Serving, Some(1), true), NOTHING),
    (Call::Tick, NOTHING),
    // What it said comes again: it is told again that it is accepted.
    (Call::Give(DU, "01020101"), &[Put::Say(DU, 1, "1501040101")]),
    (Call::Order(Order::Attach(HERE)), &[Put::No(RefuseReason::Attached)]),
    (Call::Order(Order::Release(UE)), &[Put::Say(DU, 1, "140102"), Put::Say(UP, 1, "240103")]),
    (Call::Look(StateName::Idle, Some(1), false), NOTHING),
];

/// A handover to gNB B is asked for: instance 1, epoch 2.
const HANDOVER: (Call, &[Put]) = (
    Call::Order(Order::Handover(THERE)),
    &[Put::Say(OTHER, 1, "31010102")],
);

/// It is prepared there: the bearers are frozen here.
const PREPARED: (Call, &[Put]) = (Call::Give(OTHER, "320101"), &[Put::Say(UP, 1, "23010102")]);

/// They are: the SN status.
const FROZEN: (Call, &[Put]) = (Call::Give(UP, "230101"), &[Put::Say(OTHER, 1, "340102")]);

/// The terminal never reaches gNB B, and is back: it is served here again, and what is old changes nothing.
#[rattlefmt::skip]
const MISSED_ACCESS: [(Call, &[Put]); 20] = [
    (Call::Place, NOTHING),
    HANDOVER,
    (Call::Tick, &[Put::Say(OTHER, 1, "31010102")]),
    (Call::Order(Order::Handover(THERE)), &[Put::No(RefuseReason::Busy)]),
    PREPARED,
    // It is back too early, and so is the cancel.
    (Call::Give(DU, "01030102"), &[Put::Drop(DropReason::Busy)]),
    (Call::Order(Order::Cancel(UE)), &[Put::No(RefuseReason::Busy)]),
    FROZEN,
    (Call::Give(OTHER, "370102"), NOTHING),
    (Call::Tick, &[Put::Say(DU, 1, "1501010102")]),
    // After the command no cancel is taken.
    (Call::Order(Order::Cancel(UE)), &[Put::No(RefuseReason::TooLate)]),
    (Call::Give(DU, "01030102"), &[Put::Say(DU, 1, "13010102"), Put::Say(OTHER, 1, "350103")]),
    (Call::Give(OTHER, "370103"), NOTHING),
    (Call::Give(DU, "130101"), &[Put::Say(UP, 1, "23010201")]),
    (Call::Give(UP, "230102"), &[Put::Say(DU, 1, "1501040102")]),
    (Call::Look(StateName::Serving, Some(2), true), NOTHING),
    // The old acknowledge, and an arrival of the old epoch.
    (Call::Give(OTHER, "320101"), &[Put::Drop(DropReason::Stale)]),
    (Call::Give(DU, "01020101"), &[Put::Drop(DropReason::Unexpected)]),
    (Call::Tick, NOTHING),
    (Call::Look(StateName::Serving, Some(2), true), NOTHING),
];

/// It is cancelled before the command: the cancel goes before all else, and the bearers go on.
#[rattlefmt::skip]
const CANCELLED: [(Call, &[Put]); 11] = [
    (Call::Place, NOTHING),
    HANDOVER,
    PREPARED,
    FROZEN,
    (Call::Order(Order::Cancel(UE)), &[Put::Say(OTHER, 1, "350103"), Put::Say(UP, 1, "23010204")]),
    (Call::Look(StateName::Serving, None, false), NOTHING),
    // Only the cancel is awaited any more.
    (Call::Give(OTHER, "370102"), &[Put::Drop(DropReason::Stale)]),
    (Call::Give(OTHER, "370103"), NOTHING),
    (Call::Give(UP, "230102"), NOTHING),
    (Call::Look(StateName::Serving, None, true), NOTHING),
    (Call::Order(Order::Cancel(UE)), &[Put::No(RefuseReason::Empty)]),
];

/// gNB B declines it.
const DECLINED: [(Call, &[Put]); 4] = [
    (Call::Place, NOTHING),
    HANDOVER,
    (Call::Give(OTHER, "330101"), &[Put::Failed(CauseName::Busy)]),
    (Call::Look(StateName::Serving, None, true), NOTHING),
];

/// No message answers it: at the eighth tick it has failed, and is cancelled until that is confirmed.
#[rattlefmt::skip]
const EXPIRED: [(Call, &[Put]); 16] = [
    (Call::Place, NOTHING),
    HANDOVER,
    (Call::Tick, &[Put::Say(OTHER, 1, "31010102")]),
    (Call::Tick, &[Put::Say(OTHER, 1, "31010102")]),
    (Call::Tick, &[Put::Say(OTHER, 1, "31010102")]),
    (Call::Tick, &[Put::Say(OTHER, 1, "31010102")]),
    (Call::Tick, &[Put::Say(OTHER, 1, "31010102")]),
    (Call::Tick, &[Put::Say(OTHER, 1, "31010102")]),
    (Call::Tick, &[Put::Say(OTHER, 1, "31010102")]),
    (Call::Look(StateName::Preparing, None, false), NOTHING),
    (Call::Tick, &[Put::Say(OTHER, 1, "350102"), Put::Failed(CauseName::Timeout)]),
    (Call::Look(StateName::Serving, None, false), NOTHING),
    (Call::Tick, &[Put::Say(OTHER, 1, "350102")]),
    (Call::Give(OTHER, "320101"), &[Put::Drop(DropReason::Stale)]),
    (Call::Give(OTHER, "370102"), NOTHING),
    (Call::Look(StateName::Serving, None, true), NOTHING),
];

#[test]
fn runs(rt: HostRuntime) {
    let alloc = rt.alloc();
    assert!(rt; is_as_told(alloc, &ATTACH), "a terminal attaches");
    assert!(rt;
        is_as_told(alloc, &MISSED_ACCESS),
        "a terminal misses the other gNB"
    );
    assert!(rt; is_as_told(alloc, &CANCELLED), "a handover is cancelled");
    assert!(rt; is_as_told(alloc, &DECLINED), "a handover is declined");
    assert!(rt; is_as_told(alloc, &EXPIRED), "a handover expires");
}
