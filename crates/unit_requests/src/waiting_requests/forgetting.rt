//! What waits of a terminal whose attempt ended.

ghost use Rattle.std.specs.Prelude.{◌≡◌, map, IfOk, OnOk};
ghost use Rattle.tables.specs.Queues.{TakesFirst};
ghost use Rattle.unit_defs.specs.CuCpRecords.{not_awaited, unawaited, forgotten};
ghost use Rattle.unit_defs.specs.octet_defs.Codec.{Codec, octet_way};

use crate::{Requests, Waiting};
use gnb_types::items::Memory;
use gnb_types::keys::Channel;
use gnb_types::names::UeId;
use std::alloc::Global;
use std::mem;
use tables::queue::Queue;
use tables::table::Table;

/// The same queue, with nothing in it that an attempt awaits.
fn not_awaited(alloc: Global, mut queue: Queue<Waiting>) -> Result<Queue<Waiting>, Memory>
    ensures { (codec : Codec) → IfOk result
        (λ after. after ≡ map (not_awaited (octet_way codec)) queue) }
{
    let mut after = Queue::new(alloc);
    while let Some(mut waiting) = queue.take() {
        waiting.awaited = false;
        after.push(waiting)?;
    }
    Ok(after)
}

/// What waits on a channel, where it is one of the terminal with nothing that an attempt awaits.
fn unawaited(
    alloc: Global,
    ue: UeId,
    channel: Channel,
    queue: Queue<Waiting>,
) -> Result<Queue<Waiting>, Memory>
    ensures { (codec : Codec) → IfOk result (λ after. (channel, after)
        ≡ unawaited (octet_way codec) ue (channel, queue)) }
{
    if channel.ue == ue.0 {
        return not_awaited(alloc, queue);
    }
    Ok(queue)
}

/// Takes the entry of the least channel out.
fn take_first(table: &mut Table<Channel, Queue<Waiting>>) -> Option<(Channel, Queue<Waiting>)>
    ensures { TakesFirst table.old table.new result }
{
    // Its clause says that the channels are in order.
    let _ = table.len();
    let Some((channel, _)) = table.first() else {
        return None;
    };
    let channel = *channel;
    let Some(queue) = table.take(&channel) else {
        return None;
    };
    Some((channel, queue))
}

/// The same table, with nothing in it of the terminal that an attempt awaits.
fn rebuilt(
    alloc: Global,
    ue: UeId,
    mut left: Table<Channel, Queue<Waiting>>,
) -> Result<Table<Channel, Queue<Waiting>>, Memory>
    ensures { (codec : Codec) → IfOk result
        (λ after. after ≡ map (unawaited (octet_way codec) ue) left) }
{
    // Its clause says that the channels are in order.
    let _ = left.len();
    let mut after = Table::new(alloc);
    while let Some((channel, queue)) = take_first(&mut left) {
        let queue = unawaited(alloc, ue, channel, queue)?;
        after.put(channel, queue)?;
    }
    Ok(after)
}

/// No attempt awaits the answers of what waits of this terminal any more.
pub fn forget(requests: &mut Requests, alloc: Global, ue: UeId) -> Result<(), Memory>
    ensures { (codec : Codec) → OnOk result
        (requests.new ≡ forgotten (octet_way codec) ue requests.old) }
{
    let left = mem::replace(&mut requests.waiting, Table::new(alloc));
    requests.waiting = rebuilt(alloc, ue, left)?;
    Ok(())
}
