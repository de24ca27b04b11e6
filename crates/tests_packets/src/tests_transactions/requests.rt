//! Each public call once and more. A call that memory stops is made again, and must answer as if it had not been made before: so the
//! tests also pass where any one allocation fails.

use gnb_types::items::Memory;
use gnb_types::keys::Channel;
use gnb_types::names::{Gnb, NodeId};
use gnb_types::octets::Octets;
use std::alloc::Global;
use std::test::Fail;
use transactions::callee::{Callee, Verdict};
use transactions::caller::{BeginError, Caller, Due, DueList, Reply};

const DU: NodeId = NodeId::Du(Gnb::A, 1);

const CORE: NodeId = NodeId::Core;

fn one(alloc: Global, octet: u8) -> Result<Octets, Memory> {
    match Octets::one(alloc, octet) {
        Ok(octets) => Ok(octets),
        Err(_) => Octets::one(alloc, octet),
    }
}

fn begin(caller: &mut Caller, channel: Channel, deadline: Option<u16>) -> Result<u32, BeginError> {
    match caller.begin(channel, deadline) {
        Err(BeginError::Memory) => caller.begin(channel, deadline),
        answer => answer,
    }
}

fn tick(caller: &mut Caller, alloc: Global) -> Result<DueList, Memory> {
    match caller.tick(alloc) {
        Err(_) => caller.tick(alloc),
        answer => answer,
    }
}

fn accept(callee: &mut Callee, channel: Channel, instance: u32) -> Result<Verdict, Memory> {
    match callee.accept(channel, instance) {
        Err(_) => callee.accept(channel, instance),
        answer => answer,
    }
}

fn kept_octet(callee: &Callee, channel: &Channel) -> Option<u8> {
    match callee.kept(channel)?.as_slice() {
        [octet] => Some(*octet),
        _ => None,
    }
}

/// Whether this is due of a request: its terminal, its peer, and the octet that is put again, or none where it expires.
fn is_due(due: &Due, row: &(u8, NodeId, Option<u8>)) -> bool {
    let (ue, peer, octet) = *row;
    let expected = Channel { ue, peer };
    match (due, octet) {
        (Due::Repeat { channel, bytes }, Some(octet)) => {
            *channel == expected && bytes.as_slice() == [octet].as_slice()
        }
        (Due::Expired { channel }, None) => *channel == expected,
        _ => false,
    }
}

/// What is due at each of five ticks.
const TICKS: [&[(u8, NodeId, Option<u8>)]; 5] = [
    &[(0, CORE, Some(40)), (1, DU, Some(10)), (2, DU, Some(20))],
    &[(0, CORE, Some(40)), (1, DU, None), (2, DU, Some(20))],
    &[(0, CORE, Some(40)), (1, CORE, None), (2, DU, Some(20))],
    &[(0, CORE, Some(40)), (2, DU, None)],
    &[(0, CORE, Some(40))],
];

/// Requests that are made: terminal, peer, ticks, and the octet that is kept.
const BEGUN: [(u8, NodeId, Option<u16>, Option<u8>); 4] = [
    (2, DU, Some(4), Some(20)),
    (1, CORE, Some(3), None),
    (1, DU, Some(2), Some(10)),
    (0, CORE, None, Some(40)),
];

/// Whether a request is begun once, as the first of its channel.
fn begins(caller: &mut Caller, channel: Channel, deadline: Option<u16>) -> bool {
    let is_begun = begin(caller, channel, deadline) == Ok(1);
    is_begun && begin(caller, channel, deadline) == Err(BeginError::Running)
}

fn begins_all(caller: &mut Caller, alloc: Global) -> Result<bool, Memory> {
    for (ue, peer, deadline, octet) in BEGUN {
        let channel = Channel { ue, peer };
        if !begins(caller, channel, deadline) {
            return Ok(false);
        }
        if let Some(octet) = octet {
            caller.keep_request(&channel, one(alloc, octet)?);
        }
    }
    Ok(true)
}

fn are_due(due: &[Due], rows: &[(u8, NodeId, Option<u8>)]) -> bool {
    for (due, row) in due.iter().zip(rows) {
        if !is_due(due, row) {
            return false;
        }
    }
    due.len() == rows.len()
}

/// Whether at each tick what should be is due.
fn ticks(caller: &mut Caller, alloc: Global) -> Result<bool, Memory> {
    for rows in TICKS {
        let due = tick(caller, alloc)?;
        if !are_due(due.as_slice(), rows) {
            return Ok(false);
        }
    }
    Ok(true)
}

#[test]
fn requests_are_put_again_until_they_expire(rt: HostRuntime) -> Result<(), Fail> {
    let alloc = rt.alloc();
    let mut caller = Caller::new(alloc);
    let begun = begins_all(&mut caller, alloc);
    let ticked = ticks(&mut caller, alloc);
    drop(caller);
    assert!(rt; begun? && ticked?);
    Ok(())
}

/// The channel of the requests, and another one of the same terminal.
const ASKED: Channel = Channel { ue: 3, peer: DU };

const OTHER: Channel = Channel { ue: 3, peer: CORE };

/// Whether a request with this instance is begun, and open on its channel alone.
fn opens(caller: &mut Caller, instance: u32) -> bool {
    let was_closed = caller.rests(3) && !caller.is_open(&ASKED);
    let was_stale = caller.reply(&ASKED, instance) == Reply::Stale;
    let is_begun = begin(caller, ASKED, None) == Ok(instance);
    let is_alone = caller.is_open(&ASKED) && !caller.is_open(&OTHER);
    was_closed && was_stale && is_begun && is_alone && !caller.rests(3) && caller.rests(2)
}

/// Whether the reply with this instance alone is taken.
fn takes_one(caller: &Caller, instance: u32) -> bool {
    let is_next = caller.reply(&ASKED, instance.wrapping_add(1)) == Reply::Taken;
    let is_last = caller.reply(&ASKED, instance.wrapping_sub(1)) == Reply::Taken;
    let is_other = caller.reply(&OTHER, instance) == Reply::Taken;
    let is_taken = caller.reply(&ASKED, instance) == Reply::Taken;
    is_taken && !(is_next || is_last || is_other)
}

/// Whether closing another channel leaves it open, and it is closed then.
fn closes(caller: &mut Caller) -> bool {
    caller.close(&OTHER);
    let stays = caller.is_open(&ASKED);
    caller.close(&ASKED);
    stays && !caller.is_open(&ASKED)
}

fn takes_each(caller: &mut Caller) -> bool {
    for instance in 1..4u32 {
        if !(opens(caller, instance) && takes_one(caller, instance) && closes(caller)) {
            return false;
        }
    }
    true
}

#[test]
fn one_reply_of_each_request_is_taken(rt: HostRuntime) -> Result<(), Fail> {
    let mut caller = Caller::new(rt.alloc());
    let is_taken = takes_each(&mut caller);
    drop(caller);
    assert!(rt; is_taken);
    Ok(())
}

/// Requests as they come: terminal, initiator, instance, what it is, and the octet of the reply that is kept before it.
const REQUESTS: [(u8, NodeId, u32, Verdict, Option<u8>); 10] = [
    (1, DU, 2, Verdict::New, None),
    (1, DU, 2, Verdict::Again, Some(1)),
    (1, DU, 1, Verdict::Stale, Some(1)),
    (1, CORE, 1, Verdict::New, None),
    (2, DU, 0, Verdict::New, None),
    (2, DU, 0, Verdict::Again, Some(5)),
    (1, DU, 9, Verdict::New, Some(1)),
    (1, DU, 2, Verdict::Stale, Some(7)),
    (1, DU, 4_294_967_295, Verdict::New, Some(7)),
    (1, CORE, 1, Verdict::Again, Some(4)),
];

/// Keeps the reply to a new request, and one to an earlier request, which isn't kept.
fn keep(
    callee: &mut Callee,
    alloc: Global,
    channel: Channel,
    instance: u32,
    octet: u8,
) -> Result<(), Memory> {
    callee.keep(&channel, one(alloc, 99)?);
    callee.keep_for(&channel, instance, one(alloc, octet)?);
    callee.keep_for(&channel, instance.wrapping_sub(1), one(alloc, 98)?);
    Ok(())
}

fn answers_all(callee: &mut Callee, alloc: Global) -> Result<bool, Memory> {
    let mut octet = 0u8;
    for (ue, peer, instance, verdict, kept) in REQUESTS {
        octet = octet.wrapping_add(1);
        let channel = Channel { ue, peer };
        let was_kept = kept_octet(callee, &channel) == kept;
        if !was_kept || accept(callee, channel, instance) != Ok(verdict) {
            return Ok(false);
        }
        if verdict == Verdict::New {
            if callee.kept(&channel).is_some() {
                return Ok(false);
            }
            keep(callee, alloc, channel, instance, octet)?;
        }
    }
    Ok(true)
}

#[test]
fn replies_are_kept_for_the_newest_request(rt: HostRuntime) -> Result<(), Fail> {
    let alloc = rt.alloc();
    let mut callee = Callee::new(alloc);
    let answered = answers_all(&mut callee, alloc);
    drop(callee);
    assert!(rt; answered?);
    Ok(())
}
