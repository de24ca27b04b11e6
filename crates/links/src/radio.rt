//! The radio of a bearer and direction.

ghost use Rattle.std.specs.Prelude.{◌≡◌, length, IfOk, OnOk, OnErr, option_copied, slice_get};
ghost use Rattle.transport_defs.specs.Links.{silent};
ghost use Rattle.links.specs.Radios.{with_item, uncarried, carried_on, oldest_carried, Confirms};

use crate::items::{Item, copy_item};
use gnb_types::items::Memory;
use std::alloc::Global;
use std::collections::VecDeque;
use std::marker::Model;

/// What stands on a radio, the oldest item first: those that were carried and aren't confirmed, then those that weren't carried.
#[derive(Drop)]
pub struct RadioQueue {
    items: VecDeque<Item>,
    carried: usize,
}

impl Model for RadioQueue {
    ghost use Rattle.std.specs.Prelude.{List, ℕ, ◌≤◌, length};
    ghost use Rattle.transport_defs.specs.Links.{Radio};

    ghost Value = { Radio (List ℕ) };

    ghost view = { λ r. record { items = r.items.items; carried = r.carried } };

    ghost invariant = { λ r. r.carried ≤ length r.items.items };
}

fn item_at(items: &VecDeque<Item>, index: usize) -> Option<&Item>
    ensures { option_copied result ≡ slice_get items.now.items index }
{
    items.get(index)
}

impl RadioQueue {
    /// Nothing stands there.
    pub fn new(alloc: Global) -> RadioQueue
        ensures { result ≡ silent }
    {
        RadioQueue {
            items: VecDeque::new(alloc),
            carried: 0,
        }
    }

    /// How many items stand there.
    pub fn len(&self) -> u64
        ensures { result ≡ length self.now.items }
    {
        self.items.len() as u64
    }

    pub fn put(&mut self, item: Item) -> Result<(), Memory>
        ensures ok { OnOk result (self.new ≡ with_item self.old item) }
        ensures err { OnErr result (self.new ≡ self.old) }
    {
        self.items.push_back(item)?;
        Ok(())
    }

    /// The oldest item that isn't carried.
    pub fn head(&self) -> Option<&Item>
        ensures { option_copied result ≡ uncarried self.now }
    {
        item_at(&self.items, self.carried)
    }

    /// The oldest carried item.
    pub fn oldest_carried(&self) -> Option<&Item>
        ensures { option_copied result ≡ oldest_carried self.now }
    {
        if self.carried == 0 {
            return None;
        }
        item_at(&self.items, 0)
    }

    /// Carries it, and gives a copy: the item stays until it is confirmed.
    pub fn carry(&mut self) -> Result<Option<Item>, Memory>
        ensures item { IfOk result (λ item. item ≡ uncarried self.old) }
        ensures ok { IfOk result (λ item. self.new ≡ carried_on self.old item) }
        ensures err { OnErr result (self.new ≡ self.old) }
    {
        let Some(item) = item_at(&self.items, self.carried) else {
            return Ok(None);
        };
        let copy = copy_item(item)?;
        self.carried += 1;
        Ok(Some(copy))
    }

    /// Takes the oldest carried item out.
    pub fn confirm(&mut self) -> Option<Item>
        ensures { Confirms self.old self.new result }
    {
        if self.carried == 0 {
            return None;
        }
        let item = self.items.pop_front()?;
        self.carried -= 1;
        Some(item)
    }

    /// All that stands there.
    pub fn into_items(self) -> VecDeque<Item>
        ensures { result.items ≡ self.items }
    {
        self.items
    }
}
