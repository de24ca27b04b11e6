//! The bag of control messages, call by call. The answers were worked out by hand.

use crate::tests_links::calls::{Answer, DU, UP, refused};
use gnb_types::items::Memory;
use gnb_types::octets::Octets;
use links::bag::{Bag, Message};
use links::error::LinkError;
use std::alloc::Global;

/// A call of the bag. A message is put of a terminal, whose number is its one octet.
#[derive(Clone, Copy)]
enum Call {
    Put(u8),
    Give(u32),
    Lose(u32),
    Least,
    InFlight(Option<u8>),
}

const CALLS: [(Call, Answer); 24] = [
    (Call::Least, Answer::Least(None)),
    (Call::Put(1), Answer::Number(1)),
    (Call::Put(0), Answer::Number(2)),
    (Call::Put(1), Answer::Number(3)),
    (Call::Put(2), Answer::Number(4)),
    (Call::InFlight(None), Answer::Number(4)),
    (Call::InFlight(Some(1)), Answer::Number(2)),
    (Call::InFlight(Some(0)), Answer::Number(1)),
    (Call::InFlight(Some(3)), Answer::Number(0)),
    // A message may be given again; it leaves the flight once.
    (Call::Give(1), Answer::Message(DU, UP, 1, Some(1))),
    (Call::Give(1), Answer::Message(DU, UP, 1, Some(1))),
    (Call::InFlight(None), Answer::Number(3)),
    (Call::InFlight(Some(1)), Answer::Number(1)),
    (Call::Least, Answer::Least(Some(2))),
    // What is lost can still be given, and can't be lost again.
    (Call::Lose(2), Answer::Done),
    (Call::Least, Answer::Least(Some(3))),
    (Call::Give(2), Answer::Message(DU, UP, 0, Some(0))),
    (Call::InFlight(None), Answer::Number(2)),
    (Call::Lose(1), Answer::Refused(LinkError::Empty)),
    (Call::Lose(2), Answer::Refused(LinkError::Empty)),
    (Call::Lose(0), Answer::Refused(LinkError::NoSuch)),
    (Call::Lose(5), Answer::Refused(LinkError::NoSuch)),
    (Call::Give(0), Answer::Refused(LinkError::NoSuch)),
    (Call::Give(5), Answer::Refused(LinkError::NoSuch)),
];

fn shown(message: &Message) -> Answer {
    let octet = message.message.as_slice().first().copied();
    Answer::Message(message.from, message.to, message.ue, octet)
}

fn answer(bag: &mut Bag, alloc: Global, call: Call) -> Result<Answer, Memory> {
    match call {
        Call::Put(ue) => match bag.put(DU, UP, ue, Octets::one(alloc, ue)?) {
            Ok(number) => Ok(Answer::Number(u64::from(number))),
            Err(error) => refused(error),
        },
        Call::Give(number) => match bag.give(number) {
            Ok(message) => Ok(shown(&message)),
            Err(error) => refused(error),
        },
        Call::Lose(number) => match bag.lose(number) {
            Ok(()) => Ok(Answer::Done),
            Err(error) => refused(error),
        },
        Call::Least => Ok(Answer::Least(bag.least())),
        Call::InFlight(ue) => Ok(Answer::Number(u64::from(bag.in_flight(ue)))),
    }
}

/// After a call that was out of memory all is as it was, so that it answers the same when it is made again.
fn is_answered(bag: &mut Bag, alloc: Global, call: Call, wanted: Answer) -> bool {
    match answer(bag, alloc, call) {
        Ok(answered) => answered == wanted,
        Err(_) => answer(bag, alloc, call) == Ok(wanted),
    }
}

#[test]
fn a_bag_from_end_to_end(rt: HostRuntime) -> Result<(), Memory> {
    let alloc = rt.alloc();
    let mut bag = Bag::new(alloc)?;
    for &(call, wanted) in &CALLS {
        assert!(rt; is_answered(&mut bag, alloc, call, wanted));
    }
    Ok(())
}
