//! What stands on tunnels and radios.

ghost use Rattle.std.specs.Prelude.{◌≡◌, ◌++◌, ◌∷◌, [], List, length, drop, IfOk, OnOk, option_copied};
ghost use Rattle.scenario_text.specs.declared.line.Item.{Item as OnLine};
ghost use Rattle.tables.specs.Queues.{first_item};
ghost use Rattle.transcript_defs.specs.Past.{after_loss};
ghost use Rattle.transcript_check.specs.inside.Queues.{link_key, queue_on, AreQueues, Changes, FollowsLine};

use gnb_types::items::Memory;
use gnb_types::keys::{EntityKey, TunnelEnd};
use scenario_text::line::{Item, Link, OutLine};
use std::alloc::Global;
use tables::queue::Queue;
use tables::table::Table;
use transcript_defs::line::TextLine;

/// A radio of an epoch.
#[derive(Clone, Copy, PartialEq, Eq, PartialOrd, Ord)]
pub struct RadioKey {
    pub entity: EntityKey,
    pub epoch: u32,
}

/// A tunnel or a radio, as the key of a table.
#[derive(Clone, Copy, PartialEq, Eq, PartialOrd, Ord)]
pub enum LinkKey {
    Tunnel(TunnelEnd),
    Radio(RadioKey),
}

impl LinkKey {
    fn of(link: Link) -> LinkKey
        ensures { result ≡ link_key link }
    {
        match link {
            Link::Tunnel { end, teid } => LinkKey::Tunnel(TunnelEnd { node: end, teid }),
            Link::Radio {
                ue,
                bearer,
                dir,
                epoch,
            } => LinkKey::Radio(RadioKey {
                entity: EntityKey { ue, bearer, dir },
                epoch,
            }),
        }
    }
}

/// What stands on each link, the oldest item first.
#[derive(Drop)]
pub struct Queues {
    queues: Table<LinkKey, Queue<Item>>,
}

impl Queues {
    /// Nothing stands anywhere.
    pub fn new(alloc: Global) -> Queues
        ensures { AreQueues [] result.queues }
    {
        Queues {
            queues: Table::new(alloc),
        }
    }

    /// The oldest item that stands on a link.
    #[tactic(auto, unfolding(tables::specs::Tables::at))]
    pub fn head(&self, link: Link) -> Option<&Item>
        ensures { option_copied result ≡ first_item (queue_on self.now.queues link) }
    {
        match self.queues.get(&LinkKey::of(link)) {
            Some(queue) => queue.head(),
            None => None,
        }
    }

    /// How many items stand on a link.
    #[tactic(auto, unfolding(tables::specs::Tables::at))]
    pub fn len(&self, link: Link) -> usize
        ensures { result ≡ length (queue_on self.now.queues link) }
    {
        match self.queues.get(&LinkKey::of(link)) {
            Some(queue) => queue.len(),
            None => 0,
        }
    }

    /// Follows a line.
    pub fn follow(&mut self, alloc: Global, line: &TextLine) -> Result<(), Memory>
        ensures { OnOk result (FollowsLine line.now self.old.queues self.new.queues) }
    {
        let TextLine::Printed { line } = line else {
            return Ok(());
        };
        match line {
            OutLine::Put { link, item } => self.put(alloc, *link, item),
            OutLine::Got { link, .. } => {
                self.take(*link);
                Ok(())
            }
            OutLine::Lost { link, items } => {
                self.lose(*link, *items);
                Ok(())
            }
            _ => Ok(()),
        }
    }

    #[tactic(auto, unfolding(tables::specs::Tables::at))]
    fn put(&mut self, alloc: Global, link: Link, item: &Item) -> Result<(), Memory>
        ensures { OnOk result (Changes link (λ (items : List OnLine). items ++ item.now ∷ []) self.old.queues self.new.queues) }
    {
        let item = copy_item(item)?;
        let key = LinkKey::of(link);
        let Some(queue) = self.queues.get_mut(&key) else {
            let mut queue = Queue::new(alloc);
            queue.push(item)?;
            self.queues.put(key, queue)?;
            return Ok(());
        };
        queue.push(item)?;
        Ok(())
    }

    fn take(&mut self, link: Link)
        ensures { Changes link (λ (items : List OnLine). drop 1 items) self.old.queues self.new.queues }
    {
        self.shorten(link, 1);
    }

    fn lose(&mut self, link: Link, items: u64)
        ensures { Changes link (λ (standing : List OnLine). after_loss link items standing) self.old.queues self.new.queues }
    {
        match link {
            Link::Tunnel { .. } => self.shorten(link, items),
            Link::Radio { .. } => self.empty(link),
        }
    }

    fn shorten(&mut self, link: Link, items: u64)
        ensures { Changes link (λ (standing : List OnLine). drop items standing) self.old.queues self.new.queues }
    {
        let Some(queue) = self.queues.get_mut(&LinkKey::of(link)) else {
            return;
        };
        drop_oldest(queue, items);
    }

    fn empty(&mut self, link: Link)
        ensures { Changes link (λ (standing : List OnLine). []) self.old.queues self.new.queues }
    {
        self.queues.take(&LinkKey::of(link));
    }
}

fn copy_item(item: &Item) -> Result<Item, Memory>
    ensures { IfOk result (λ copy. copy ≡ item.now) }
{
    let bytes = item.bytes.clone()?;
    Ok(Item {
        ue: item.ue,
        bearer: item.bearer,
        dir: item.dir,
        count: item.count,
        bytes,
    })
}

/// Takes the oldest items out, so many or all.
#[tactic(auto, using(crate::proofs::QueueLemmas::dropped_more, crate::proofs::QueueLemmas::dropped_all))]
fn drop_oldest(queue: &mut Queue<Item>, items: u64)
    ensures { queue.new ≡ drop items queue.old }
{
    for _ in 0..items {
        let Some(_) = queue.take() else {
            return;
        };
    }
}
