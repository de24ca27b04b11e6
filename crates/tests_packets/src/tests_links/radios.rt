//! Radios, call by call. The answers were worked out by hand.

use crate::tests_links::calls::{Answer, KEY, given, item, shown};
use gnb_types::items::Memory;
use links::error::LinkError;
use links::radios::Radios;
use std::alloc::Global;

/// A call of the radios. An item is put in an epoch, with its COUNT and its octet.
#[derive(Clone, Copy)]
enum Call {
    Connect(Option<u32>),
    Put(u32, Option<u32>, u8),
    Head,
    Carry,
    Confirm,
    Fail,
    Standing,
}

const CALLS: [(Call, Answer); 20] = [
    // Only the radio of the epoch takes items.
    (Call::Put(1, Some(0), 1), Answer::Is(false)),
    (Call::Connect(Some(2)), Answer::Done),
    (Call::Put(1, Some(0), 1), Answer::Is(false)),
    (Call::Head, Answer::Refused(LinkError::Empty)),
    (Call::Put(2, Some(3), 1), Answer::Is(true)),
    (Call::Put(2, Some(4), 2), Answer::Is(true)),
    // What is carried stands there until it is confirmed.
    (Call::Confirm, Answer::Refused(LinkError::Empty)),
    (Call::Carry, Answer::Item(Some(3), Some(1))),
    (Call::Head, Answer::Item(Some(4), Some(2))),
    (Call::Standing, Answer::Standing(2, Some(3))),
    (Call::Confirm, Answer::Item(Some(3), Some(1))),
    (Call::Standing, Answer::Standing(1, Some(4))),
    // A failure loses what is carried and what is not.
    (Call::Put(2, None, 3), Answer::Is(true)),
    (Call::Carry, Answer::Item(Some(4), Some(2))),
    (Call::Fail, Answer::Number(2)),
    (Call::Fail, Answer::Number(0)),
    (Call::Standing, Answer::Standing(0, None)),
    (Call::Carry, Answer::Refused(LinkError::Empty)),
    (Call::Connect(None), Answer::Done),
    (Call::Put(2, Some(5), 4), Answer::Is(false)),
];

fn answer(radios: &mut Radios, alloc: Global, call: Call) -> Result<Answer, Memory> {
    let (ue, bearer, dir) = (KEY.ue, KEY.bearer, KEY.dir);
    match call {
        Call::Connect(epoch) => {
            radios.connect(ue, epoch);
            Ok(Answer::Done)
        }
        Call::Put(epoch, count, octet) => {
            let item = item(alloc, count, octet)?;
            Ok(Answer::Is(radios.put(epoch, item)?))
        }
        Call::Head => Ok(shown(radios.head(ue, bearer, dir))),
        Call::Carry => given(radios.carry(ue, bearer, dir)),
        Call::Confirm => given(radios.confirm(ue, bearer, dir)),
        Call::Fail => Ok(Answer::Number(radios.fail(ue, bearer, dir))),
        Call::Standing => {
            let (number, least) = radios.standing(ue, bearer, dir);
            Ok(Answer::Standing(number, least))
        }
    }
}

/// After a call that was out of memory all is as it was, so that it answers the same when it is made again.
fn is_answered(radios: &mut Radios, alloc: Global, call: Call, wanted: Answer) -> bool {
    match answer(radios, alloc, call) {
        Ok(answered) => answered == wanted,
        Err(_) => answer(radios, alloc, call) == Ok(wanted),
    }
}

#[test]
fn radios_from_end_to_end(rt: HostRuntime) -> Result<(), Memory> {
    let alloc = rt.alloc();
    let mut radios = match Radios::new(alloc) {
        Ok(radios) => radios,
        Err(_) => Radios::new(alloc)?,
    };
    for &(call, wanted) in &CALLS {
        assert!(rt; is_answered(&mut radios, alloc, call, wanted));
    }
    Ok(())
}
