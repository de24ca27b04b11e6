//! Worked runs, as far as they are a terminal's, and each reason for which it drops, holds or refuses. The octets were worked out by
//! hand.

ghost use Rattle.std.specs.Prelude.{IfOk};
ghost use Rattle.ue_node.specs.rows.Records.{IsRecord};

use crate::ue::steps::{ARRIVE, Call, DU_1, DU_2, FAIL, PLAN, Put, RETURN, is_as_told, new_node};
use crate::ue::tokens::Tokens;
use gnb_types::inputs::Order;
use gnb_types::items::Memory;
use gnb_types::names::{BearerId, Dir, Gnb, NodeId};
use gnb_types::outputs::{Outputs, Tag};
use gnb_types::reasons::{DropReason, HeldReason, RefuseReason};
use std::alloc::Global;
use ue_node::UeNode;
use ue_node::rows::UeRecord;
use unit_defs::UeState;
use unit_messages::steps::StepError;

const NOTHING: &[Put] = &[];

/// An attach: a command, its arrival, the complete that is repeated until it is accepted.
#[rattlefmt::skip]
const ATTACH: [(Call, &[Put]); 8] = [
    (Call::Give(DU_1, "00000100"), NOTHING),
    // The command again.
    (Call::Give(DU_1, "00000100"), &[Put::Drop(DropReason::Stale)]),
    (ARRIVE, &[Put::Say(DU_1, "200001"), Put::Radio(1, Tag::Absent, "0000000000")]),
    (Call::Tick, &[Put::Say(DU_1, "200001")]),
    (Call::Give(DU_1, "600002"), &[Put::Drop(DropReason::Stale)]),
    (Call::Tick, &[Put::Say(DU_1, "200001")]),
    (Call::Give(DU_1, "600001"), NOTHING),
    (Call::Tick, NOTHING),
];

/// Its radio fails, and it returns to its home.
#[rattlefmt::skip]
const RETURNED: [(Call, &[Put]); 8] = [
    (Call::Static, NOTHING),
    (FAIL, NOTHING),
    // Nothing is numbered while its radio is lost, nor while it asks.
    (Call::Offer(1, "0A"), NOTHING),
    (RETURN, &[Put::Say(DU_1, "400002")]),
    (Call::Offer(1, "0B"), NOTHING),
    (Call::Tick, &[Put::Say(DU_1, "400002")]),
    (Call::Give(DU_1, "600002"), &[Put::Radio(2, Tag::Absent, "0000000000"), Put::Radio(2, Tag::Own(0), "80000A"), Put::Radio(2, Tag::Own(1), "80010B")]),
    (Call::Air(1, Dir::Dl, "800001"), &[Put::Deliver(0, "01")]),
];

/// It misses its access to another DU, and returns: what was delivered before is a duplicate.
#[rattlefmt::skip]
const MISSED_ACCESS: [(Call, &[Put]); 9] = [
    (Call::Static, NOTHING),
    (Call::Air(1, Dir::Dl, "800001"), &[Put::Deliver(0, "01")]),
    (Call::Give(DU_1, "00000240"), NOTHING),
    (RETURN, &[Put::Say(DU_1, "400002")]),
    (Call::Give(DU_1, "600002"), &[Put::Radio(2, Tag::Absent, "0000000001")]),
    (Call::Air(1, Dir::Dl, "800001"), &[Put::Drop(DropReason::Duplicate)]),
    (Call::Air(1, Dir::Dl, "800102"), &[Put::Deliver(1, "02")]),
    // The old command, and the old acceptance.
    (Call::Give(DU_1, "00000240"), &[Put::Drop(DropReason::Stale)]),
    (Call::Give(DU_1, "600001"), &[Put::Drop(DropReason::Stale)]),
];

/// It arrives at another DU: what nothing confirmed is sent again there, and the complete goes there.
#[rattlefmt::skip]
const MOVED: [(Call, &[Put]); 9] = [
    (Call::Static, NOTHING),
    (Call::Offer(1, "0000"), &[Put::Radio(1, Tag::Own(0), "80000000")]),
    (Call::Offer(1, "0001"), &[Put::Radio(1, Tag::Own(1), "80010001")]),
    (Call::Ack(1, Dir::Ul, "80000000"), NOTHING),
    (Call::Give(DU_1, "00000240"), NOTHING),
    (Call::Offer(1, "0002"), NOTHING),
    (
        ARRIVE,
        &[
            Put::Say(DU_2, "200002"),
            Put::Radio(2, Tag::Absent, "0000000000"),
            Put::Radio(2, Tag::Own(1), "80010001"),
            Put::Radio(2, Tag::Own(2), "80020002"),
        ],
    ),
    (Call::Give(DU_2, "600002"), NOTHING),
    (Call::Tick, NOTHING),
];

/// Frames were lost: what comes ahead is stored, and delivered in order once what is missing is there.
#[rattlefmt::skip]
const LOSS: [(Call, &[Put]); 6] = [
    (Call::Static, NOTHING),
    (Call::Air(1, Dir::Dl, "800102"), NOTHING),
    (Call::Air(1, Dir::Dl, "800102"), &[Put::Drop(DropReason::Duplicate)]),
    (Call::Air(1, Dir::Dl, "800001"), &[Put::Deliver(0, "01"), Put::Deliver(1, "02")]),
    (Call::Air(1, Dir::Dl, "800102"), &[Put::Drop(DropReason::Duplicate)]),
    (Call::Air(1, Dir::Dl, "800203"), &[Put::Deliver(2, "03")]),
];

/// The quota is used, and a report and a confirmation free it.
#[rattlefmt::skip]
const QUOTA: [(Call, &[Put]); 12] = [
    (Call::Static, NOTHING),
    (Call::Offer(1, "01"), &[Put::Radio(1, Tag::Own(0), "800001")]),
    (Call::Offer(1, "02"), &[Put::Radio(1, Tag::Own(1), "800102")]),
    (Call::Offer(1, "03"), &[Put::Radio(1, Tag::Own(2), "800203")]),
    (Call::Offer(1, "04"), &[Put::Radio(1, Tag::Own(3), "800304")]),
    (Call::Offer(1, "05"), &[Put::No(RefuseReason::Quota)]),
    // The report confirms COUNTs 0 and 3: COUNT 1 is the first that isn't confirmed, and there is room for one packet.
    (Call::Air(1, Dir::Dl, "000000000140"), NOTHING),
    (Call::Offer(1, "05"), &[Put::Radio(1, Tag::Own(4), "800405")]),
    (Call::Offer(1, "06"), NOTHING),
    (Call::Offer(1, "07"), &[Put::No(RefuseReason::Quota)]),
    // That a report was carried confirms nothing.
    (Call::Ack(1, Dir::Ul, "0000000000"), NOTHING),
    (Call::Ack(1, Dir::Ul, "800102"), &[Put::Radio(1, Tag::Own(5), "800506")]),
];

/// Why orders, commands and offers can't apply.
const REFUSED: [(Call, &[Put]); 8] = [
    (ARRIVE, &[Put::No(RefuseReason::NotAccessing)]),
    (RETURN, &[Put::No(RefuseReason::NoHome)]),
    (FAIL, &[Put::No(RefuseReason::NoRadio)]),
    (
        Call::Give(DU_1, "00000200"),
        &[Put::Drop(DropReason::Stale)],
    ),
    (Call::Static, NOTHING),
    (RETURN, &[Put::No(RefuseReason::Busy)]),
    (ARRIVE, &[Put::No(RefuseReason::NotAccessing)]),
    (Call::OfferLong(2_049), &[Put::No(RefuseReason::Size)]),
];

/// Octets that are dropped, and inputs of kinds that it never takes: after all of them it is as it was.
#[rattlefmt::skip]
const DROPPED_MESSAGES: [(Call, &[Put]); 10] = [
    (Call::Static, NOTHING),
    (Call::Give(DU_1, "00"), &[Put::Drop(DropReason::Criticality)]),
    (Call::Give(DU_1, "FF0002"), &[Put::Drop(DropReason::Undecodable)]),
    // A message of F1AP, what a terminal says, a token of another terminal.
    (Call::Give(DU_1, "0000"), &[Put::Drop(DropReason::Unexpected)]),
    (Call::Give(DU_1, "200001"), &[Put::Drop(DropReason::Unexpected)]),
    (Call::Give(DU_1, "01000240"), &[Put::Drop(DropReason::Unexpected)]),
    // Nodes that share no interface with it, whatever they say.
    (Call::Give(NodeId::CuCp(Gnb::A), "00000240"), &[Put::Drop(DropReason::Unexpected)]),
    (Call::Give(NodeId::Core, "FF0002"), &[Put::Drop(DropReason::Unexpected)]),
    (Call::Order(Order::Start), &[Put::Drop(DropReason::Unexpected)]),
    (Call::Offer(1, "01"), &[Put::Radio(1, Tag::Own(0), "800001")]),
];

#[rattlefmt::skip]
const DROPPED_PDUS: [(Call, &[Put]); 13] = [
    (Call::Static, NOTHING),
    // Octets that are no PDU: none, a report that ends too soon, a control PDU of another type.
    (Call::Air(1, Dir::Dl, ""), &[Put::Drop(DropReason::Undecodable)]),
    (Call::Air(1, Dir::Dl, "00000000"), &[Put::Drop(DropReason::Undecodable)]),
    (Call::Air(2, Dir::Dl, "1000000000"), &[Put::Drop(DropReason::Undecodable)]),
    (Call::Ack(1, Dir::Ul, "8000"), &[Put::Drop(DropReason::Undecodable)]),
    // Bearers that it doesn't have.
    (Call::Air(2, Dir::Dl, "800001"), &[Put::Drop(DropReason::NoContext)]),
    (Call::Ack(2, Dir::Ul, "800001"), &[Put::Drop(DropReason::NoContext)]),
    (Call::Offer(2, "01"), &[Put::Drop(DropReason::NoContext)]),
    // Inputs of kinds that it never takes.
    (Call::Air(1, Dir::Ul, "800001"), &[Put::Drop(DropReason::Unexpected)]),
    (Call::Ack(1, Dir::Dl, "800001"), &[Put::Drop(DropReason::Unexpected)]),
    (Call::Tunnel, &[Put::Drop(DropReason::Unexpected)]),
    // The quota is 4: COUNT 4 has no room yet.
    (Call::Air(1, Dir::Dl, "800405"), &[Put::Held(HeldReason::Ahead)]),
    (Call::Tick, NOTHING),
];

#[test]
fn runs(rt: HostRuntime) {
    let alloc = rt.alloc();
    assert!(rt; is_as_told(alloc, &ATTACH), "attaches");
    assert!(rt; is_as_told(alloc, &RETURNED), "returns to its home");
    assert!(rt; is_as_told(alloc, &MISSED_ACCESS), "misses its access");
    assert!(rt; is_as_told(alloc, &MOVED), "moves to another DU");
    assert!(rt; is_as_told(alloc, &LOSS), "delivers in order after a loss");
    assert!(rt; is_as_told(alloc, &QUOTA), "uses its quota");
    assert!(rt; is_as_told(alloc, &REFUSED), "refuses");
    assert!(rt; is_as_told(alloc, &DROPPED_MESSAGES), "drops messages");
    assert!(rt; is_as_told(alloc, &DROPPED_PDUS), "drops PDUs");
}

/// Whether a terminal is in this state and epoch, with this home, and with nothing that waits.
fn is_at(node: &UeNode, state: UeState, epoch: u32, home: Option<NodeId>) -> bool {
    let rests = node.rests(BearerId(1));
    node.state() == state && node.epoch() == epoch && node.home() == home && rests
}

/// Whether a new terminal reports that it is idle, and then that it is placed.
fn reports(node: &mut UeNode) -> Result<bool, StepError> {
    let is_idle = is_at(node, UeState::Idle, 0, None);
    node.place_static()?;
    Ok(is_idle && is_at(node, UeState::Connected, 1, Some(DU_1)))
}

#[test]
fn what_it_reports(rt: HostRuntime) -> Result<(), Memory> {
    let mut node = new_node(rt.alloc())?;
    let reported = reports(&mut node);
    drop(node);
    assert!(rt; reported == Ok(true));
    Ok(())
}

/// A terminal on its way to a DU in the last epoch. Where memory runs out it is made again.
fn in_last_epoch(alloc: Global) -> Result<UeRecord, Memory>
    ensures { IfOk result (λ r. IsRecord r) }
{
    let mut record = match UeRecord::new(alloc, PLAN) {
        Ok(record) => record,
        Err(_) => UeRecord::new(alloc, PLAN)?,
    };
    record.epoch = u32::MAX;
    record.state = UeState::Accessing;
    record.home = Some(DU_1);
    Ok(record)
}

fn is_spent(stepped: Result<(), StepError>) -> bool {
    match stepped {
        Err(StepError::Spent { counter }) => counter == 5,
        Ok(()) | Err(StepError::Memory) => false,
    }
}

fn spends_at_its_arrival(alloc: Global, out: &mut Outputs) -> Result<bool, Memory> {
    let mut record = in_last_epoch(alloc)?;
    let stepped = record.arrive(alloc, &Tokens, out);
    drop(record);
    Ok(is_spent(stepped))
}

fn spends_at_its_return(alloc: Global, out: &mut Outputs) -> Result<bool, Memory> {
    let mut record = in_last_epoch(alloc)?;
    let stepped = record.come_back(alloc, &Tokens, out);
    drop(record);
    Ok(is_spent(stepped))
}

/// In the last epoch it neither arrives nor returns.
#[test]
fn epochs_are_spent(rt: HostRuntime) {
    let alloc = rt.alloc();
    let mut out = Outputs::new(alloc);
    assert!(rt; spends_at_its_arrival(alloc, &mut out) == Ok(true));
    assert!(rt; spends_at_its_return(alloc, &mut out) == Ok(true));
}
