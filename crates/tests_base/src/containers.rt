//! Each public call once, at keys and values with heap inside.

use gnb_types::octets::{Memory, Octets};
use std::alloc::Global;
use tables::queue::Queue;
use tables::shelf::Shelf;
use tables::table::Table;

/// The keys 1, 5 and 9, whose values are their octets, but for two: 1 has one more, 5 has 50.
fn fill_table(alloc: Global, table: &mut Table<u8, Octets>) -> Result<(), Memory> {
    for &key in &[5u8, 1, 9] {
        drop(table.put(key, Octets::one(alloc, key)?)?);
    }
    drop(table.put(5, Octets::one(alloc, 50)?)?);
    if let Some(value) = table.get_mut(&1) {
        value.push(11)?;
    }
    Ok(())
}

fn filled_table(alloc: Global) -> Result<Table<u8, Octets>, Memory> {
    let mut table = Table::new(alloc);
    fill_table(alloc, &mut table)?;
    Ok(table)
}

/// Whether a table holds these keys alone, by each call that looks at one.
fn has_keys(table: &Table<u8, Octets>) -> bool {
    table.len() == 3
        && !table.is_empty()
        && table.has(&9)
        && !table.has(&2)
        && table.get(&2).is_none()
        && table.first().is_some_and(|entry| *entry.0 == 1)
        && table.after(&9).is_none()
}

#[test]
fn a_table_is_filled(rt: HostRuntime) -> Result<(), Memory> {
    let table = filled_table(rt.alloc())?;
    assert!(rt; has_keys(&table));
    for &(key, next) in &[(0, 1), (1, 5), (4, 5), (5, 9)] {
        assert!(rt; table.after(&key).is_some_and(|entry| *entry.0 == next));
    }
    Ok(())
}

/// The keys and octets of a table in order.
fn shown(alloc: Global, table: &Table<u8, Octets>) -> Result<Octets, Memory> {
    let mut shown = Octets::new(alloc);
    for (key, value) in table.iter() {
        shown.push(*key)?;
        shown.append(value.as_slice())?;
    }
    Ok(shown)
}

#[test]
fn a_table_is_walked(rt: HostRuntime) -> Result<(), Memory> {
    let table = filled_table(rt.alloc())?;
    let shown = shown(rt.alloc(), &table)?;
    assert!(rt; shown.as_slice() == [1, 1, 11, 5, 50, 9, 9].as_slice());
    Ok(())
}

/// Whether these octets were handed out, or nothing.
fn is_octets(out: &Option<Octets>, octets: Option<&[u8]>) -> bool {
    match out {
        Some(value) => octets == Some(value.as_slice()),
        None => octets.is_none(),
    }
}

/// Puts one octet at key 5, and answers whether this was there.
fn replaces(
    alloc: Global,
    table: &mut Table<u8, Octets>,
    octet: u8,
    was: Option<&[u8]>,
) -> Result<bool, Memory> {
    let value = Octets::one(alloc, octet)?;
    let old = table.put(5, value)?;
    Ok(is_octets(&old, was))
}

/// Whether this is taken at key 5.
fn gives(table: &mut Table<u8, Octets>, octets: Option<&[u8]>) -> bool {
    let taken = table.take(&5);
    is_octets(&taken, octets)
}

/// Whether an empty table hands out what was there.
fn hands_out(alloc: Global, table: &mut Table<u8, Octets>) -> Result<bool, Memory> {
    let replaced = table.is_empty()
        && replaces(alloc, table, 5, None)?
        && replaces(alloc, table, 50, Some([5].as_slice()))?;
    Ok(replaced && gives(table, Some([50].as_slice())) && gives(table, None))
}

/// What was there is handed out by `put` and `take`.
#[test]
fn a_table_hands_out(rt: HostRuntime) -> Result<(), Memory> {
    let mut table = Table::new(rt.alloc());
    assert!(rt; hands_out(rt.alloc(), &mut table)?);
    Ok(())
}

/// Puts the octets 1 to 3.
fn fill(alloc: Global, queue: &mut Queue<Octets>) -> Result<(), Memory> {
    for octet in 1..4u8 {
        queue.push(Octets::one(alloc, octet)?)?;
    }
    Ok(())
}

/// Whether the octets 1 to 3 are taken, and nothing more.
fn is_emptied(queue: &mut Queue<Octets>) -> bool {
    for octet in 1..4u8 {
        let taken = queue.take();
        if !is_octets(&taken, Some([octet].as_slice())) {
            return false;
        }
    }
    queue.take().is_none()
}

/// Whether an empty queue is filled and emptied.
fn goes_end_to_end(alloc: Global, queue: &mut Queue<Octets>) -> Result<bool, Memory> {
    let was_empty = queue.is_empty();
    fill(alloc, queue)?;
    let is_filled = queue.len() == 3
        && queue
            .head()
            .is_some_and(|head| head.as_slice() == [1].as_slice());
    Ok(was_empty && is_filled && is_emptied(queue))
}

#[test]
fn a_queue_from_end_to_end(rt: HostRuntime) -> Result<(), Memory> {
    let mut queue = Queue::new(rt.alloc());
    assert!(rt; goes_end_to_end(rt.alloc(), &mut queue)?);
    Ok(())
}

/// Puts the keys 1 and 9, whose values are their octets, and 2 in the slot of a key that was taken; key 1 has one more octet.
fn fill_shelf(alloc: Global, shelf: &mut Shelf<u8, Octets>) -> Result<(), Memory> {
    for &key in &[5u8, 1, 9] {
        drop(shelf.put(key, Octets::one(alloc, key)?)?);
    }
    if let Some(value) = shelf.get_mut(&1) {
        value.push(11)?;
    }
    drop(shelf.take(&5));
    drop(shelf.put(2, Octets::one(alloc, 2)?)?);
    Ok(())
}

fn filled_shelf(alloc: Global) -> Result<Shelf<u8, Octets>, Memory> {
    let mut shelf = Shelf::new(alloc);
    fill_shelf(alloc, &mut shelf)?;
    Ok(shelf)
}

/// Whether a key has this one octet.
fn holds(shelf: &Shelf<u8, Octets>, key: u8, octets: &[u8]) -> bool {
    shelf
        .get(&key)
        .is_some_and(|value| value.as_slice() == octets)
}

#[test]
fn a_shelf_is_filled(rt: HostRuntime) -> Result<(), Memory> {
    let shelf = filled_shelf(rt.alloc())?;
    assert!(rt; shelf.has(&9) && !shelf.has(&5) && shelf.get(&5).is_none());
    assert!(rt; holds(&shelf, 1, &[1, 11]) && holds(&shelf, 2, &[2]) && holds(&shelf, 9, &[9]));
    Ok(())
}

/// Puts one octet at key 5, and answers whether this was there.
fn shelf_replaces(
    alloc: Global,
    shelf: &mut Shelf<u8, Octets>,
    octet: u8,
    was: Option<&[u8]>,
) -> Result<bool, Memory> {
    let value = Octets::one(alloc, octet)?;
    let old = shelf.put(5, value)?;
    Ok(is_octets(&old, was))
}

/// Whether this is taken at key 5.
fn shelf_gives(shelf: &mut Shelf<u8, Octets>, octets: Option<&[u8]>) -> bool {
    let taken = shelf.take(&5);
    is_octets(&taken, octets)
}

/// Whether an empty shelf hands out what was there.
fn shelf_hands_out(alloc: Global, shelf: &mut Shelf<u8, Octets>) -> Result<bool, Memory> {
    let replaced = shelf_replaces(alloc, shelf, 5, None)?
        && shelf_replaces(alloc, shelf, 50, Some([5].as_slice()))?;
    Ok(replaced && shelf_gives(shelf, Some([50].as_slice())) && shelf_gives(shelf, None))
}

/// What was there is handed out by `put` and `take`.
#[test]
fn a_shelf_hands_out(rt: HostRuntime) -> Result<(), Memory> {
    let mut shelf = Shelf::new(rt.alloc());
    assert!(rt; shelf_hands_out(rt.alloc(), &mut shelf)?);
    Ok(())
}
