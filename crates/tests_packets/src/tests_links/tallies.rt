//! Items come and go; the numbers were counted by hand.

use gnb_types::keys::EntityKey;
use gnb_types::names::{BearerId, Dir, UeId};
use gnb_types::octets::{Memory, Octets};
use links::link_tallies::tallies::Tallies;
use std::alloc::Global;
use std::collections::VecDeque;
use std::process::Abort;
use tables::queue::Queue;
use transport_defs::Item;

fn key(ue: u8) -> EntityKey {
    EntityKey {
        ue: UeId(ue),
        bearer: BearerId(1),
        dir: Dir::Ul,
    }
}

/// Whether so many items of a terminal are there, and this is the least COUNT that one shows.
fn has(tallies: &Tallies, ue: u8, number: u64, least: Option<u32>) -> bool {
    tallies.number(key(ue)) == number && tallies.least_shown(key(ue)) == least
}

/// COUNTs of items of terminal 1 that come, how many are there then, and the least COUNT.
const COME: [(Option<u32>, u64, Option<u32>); 4] = [
    (Some(9), 1, Some(9)),
    (None, 2, Some(9)),
    (Some(4), 3, Some(4)),
    (Some(4), 4, Some(4)),
];

fn items_come(rt: &impl Abort, tallies: &mut Tallies) -> Result<(), Memory> {
    for &(count, number, least) in &COME {
        tallies.enter(key(1), count)?;
        assert!(rt; has(tallies, 1, number, least));
    }
    Ok(())
}

/// The same of items that go.
const GO: [(Option<u32>, u64, Option<u32>); 3] = [
    (Some(4), 3, Some(4)),
    (Some(4), 2, Some(9)),
    (None, 1, Some(9)),
];

fn items_go(rt: &impl Abort, tallies: &mut Tallies) {
    for &(count, number, least) in &GO {
        tallies.leave(key(1), count);
        assert!(rt; has(tallies, 1, number, least));
    }
}

fn item(alloc: Global, ue: u8, count: u32) -> Item<Octets> {
    Item {
        key: key(ue),
        count: Some(count),
        content: Octets::new(alloc),
    }
}

fn queue_of(alloc: Global, item: Item<Octets>) -> Result<Queue<Item<Octets>>, Memory> {
    let mut queue = Queue::new(alloc);
    queue.push(item)?;
    Ok(queue)
}

fn items_of(alloc: Global, item: Item<Octets>) -> Result<VecDeque<Item<Octets>>, Memory> {
    let mut items = VecDeque::new(alloc);
    items.push_back(item)?;
    Ok(items)
}

/// All items of a queue go, and each of a list.
fn the_rest_goes(rt: &impl Abort, alloc: Global, tallies: &mut Tallies) -> Result<(), Memory> {
    tallies.leave_all(queue_of(alloc, item(alloc, 1, 9))?);
    assert!(rt; has(tallies, 1, 0, None));
    tallies.enter(key(3), Some(2))?;
    tallies.leave_each(items_of(alloc, item(alloc, 3, 2))?);
    assert!(rt; tallies.number(key(3)) == 0);
    Ok(())
}

#[test]
fn tallies_from_end_to_end(rt: HostRuntime) -> Result<(), Memory> {
    let mut tallies = Tallies::new(rt.alloc());
    items_come(&rt, &mut tallies)?;
    assert!(rt; has(&tallies, 2, 0, None));
    items_go(&rt, &mut tallies);
    the_rest_goes(&rt, rt.alloc(), &mut tallies)
}
