//! Tunnels, call by call. The answers were worked out by hand.

use crate::tests_links::calls::{Answer, DU, KEY, UP, given, item, shown};
use gnb_types::items::Memory;
use gnb_types::names::NodeId;
use links::error::LinkError;
use links::tunnels::Tunnels;
use std::alloc::Global;

/// A call of the tunnels. An item is put with its COUNT and its octet.
#[derive(Clone, Copy)]
enum Call {
    Make(NodeId, u32, bool),
    Put(NodeId, u32, Option<u32>, u8),
    Head(NodeId, u32),
    Length(NodeId, u32),
    Get(NodeId, u32),
    Lose(NodeId, u32),
    Close(NodeId, u32),
    After(Option<(NodeId, u32)>),
    Standing,
}

const CALLS: [(Call, Answer); 29] = [
    // The DUs of gNB A stand before the CU-UPs of B.
    (Call::Make(UP, 1, false), Answer::Done),
    (Call::Make(DU, 2, true), Answer::Done),
    (Call::Make(DU, 1, true), Answer::Done),
    (Call::After(None), Answer::Place(Some((DU, 1)))),
    (Call::After(Some((DU, 1))), Answer::Place(Some((DU, 2)))),
    (Call::After(Some((DU, 2))), Answer::Place(Some((UP, 1)))),
    (Call::After(Some((UP, 1))), Answer::Place(None)),
    // The oldest item is taken.
    (Call::Put(DU, 1, Some(7), 1), Answer::Is(true)),
    (Call::Put(DU, 1, None, 2), Answer::Is(true)),
    (Call::Put(UP, 1, Some(4), 3), Answer::Is(true)),
    (Call::Length(DU, 1), Answer::Number(2)),
    (Call::Standing, Answer::Standing(3, Some(4))),
    (Call::Head(DU, 1), Answer::Item(Some(7), Some(1))),
    (Call::Get(DU, 1), Answer::Item(Some(7), Some(1))),
    (Call::Lose(DU, 1), Answer::Item(None, Some(2))),
    // What is refused.
    (Call::Get(DU, 1), Answer::Refused(LinkError::Empty)),
    (Call::Lose(DU, 1), Answer::Refused(LinkError::Empty)),
    (Call::Lose(DU, 3), Answer::Refused(LinkError::NoSuch)),
    (Call::Lose(UP, 1), Answer::Refused(LinkError::NotAllowed)),
    // A closed tunnel has no item, and one that is made anew has none.
    (Call::Put(DU, 2, Some(5), 4), Answer::Is(true)),
    (Call::Close(UP, 1), Answer::Number(1)),
    (Call::Standing, Answer::Standing(1, Some(5))),
    (Call::Put(UP, 1, Some(6), 5), Answer::Is(false)),
    (Call::Head(UP, 1), Answer::Refused(LinkError::NoSuch)),
    (Call::Lose(UP, 1), Answer::Refused(LinkError::NoSuch)),
    (Call::Length(UP, 1), Answer::Number(0)),
    (Call::After(Some((DU, 2))), Answer::Place(None)),
    (Call::Make(DU, 2, false), Answer::Done),
    (Call::Standing, Answer::Standing(0, None)),
];

fn answer(tunnels: &mut Tunnels, alloc: Global, call: Call) -> Result<Answer, Memory> {
    match call {
        Call::Make(node, teid, lossy) => {
            tunnels.make(node, teid, lossy)?;
            Ok(Answer::Done)
        }
        Call::Put(node, teid, count, octet) => {
            let item = item(alloc, count, octet)?;
            Ok(Answer::Is(tunnels.put(node, teid, item)?))
        }
        Call::Head(node, teid) => Ok(shown(tunnels.head(node, teid))),
        Call::Length(node, teid) => Ok(Answer::Number(tunnels.length(node, teid))),
        Call::Get(node, teid) => given(tunnels.get(node, teid)),
        Call::Lose(node, teid) => given(tunnels.lose(node, teid)),
        Call::Close(node, teid) => Ok(Answer::Number(tunnels.close(node, teid))),
        Call::After(place) => Ok(Answer::Place(tunnels.after(place))),
        Call::Standing => {
            let (number, least) = tunnels.standing(KEY.ue, KEY.bearer, KEY.dir);
            Ok(Answer::Standing(number, least))
        }
    }
}

/// After a call that was out of memory all is as it was, so that it answers the same when it is made again.
fn is_answered(tunnels: &mut Tunnels, alloc: Global, call: Call, wanted: Answer) -> bool {
    match answer(tunnels, alloc, call) {
        Ok(answered) => answered == wanted,
        Err(_) => answer(tunnels, alloc, call) == Ok(wanted),
    }
}

#[test]
fn tunnels_from_end_to_end(rt: HostRuntime) -> Result<(), Memory> {
    let alloc = rt.alloc();
    let mut tunnels = Tunnels::new(alloc)?;
    for &(call, wanted) in &CALLS {
        assert!(rt; is_answered(&mut tunnels, alloc, call, wanted));
    }
    Ok(())
}
