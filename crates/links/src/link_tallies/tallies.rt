//! Tallies of items, by bearer and direction.

ghost use Rattle.std.specs.Prelude.{◌≡◌, [], OnOk, OnErr};
ghost use Rattle.gnb_types.specs.Orders.{entity_cmp};
ghost use Rattle.tables.specs.Tables.{put, first_entry};
ghost use Rattle.links.specs.link_tallies.Tallies.{no_items, shown_more, shown_less, entered_by, left_by, key_in, entered, left, all_left, number, times, least_shown, IsLeast};

use gnb_types::items::Memory;
use gnb_types::keys::EntityKey;
use std::alloc::Global;
use std::collections::VecDeque;
use std::marker::Model;
use tables::queue::Queue;
use tables::table::Table;
use transport_defs::Item;

/// How many items there are, and how many of them show each COUNT.
#[derive(Drop)]
pub struct Tally {
    items: u64,
    shown: Table<u32, u64>,
}

impl Tally {
    fn new(alloc: Global) -> Tally
        ensures { result ≡ no_items }
    {
        Tally {
            items: 0,
            shown: Table::new(alloc),
        }
    }

    /// One more item shows this COUNT.
    #[tactic(auto, unfolding(crate::specs::link_tallies::Tallies::shown_more, tables::specs::Tables::at))]
    fn show(&mut self, count: u32) -> Result<(), Memory>
        ensures ok { OnOk result (self.new ≡ record self.old { shown = shown_more self.old.shown count }) }
        ensures err { OnErr result (self.new ≡ self.old) }
    {
        let Some(times) = self.shown.get_mut(&count) else {
            self.shown.put(count, 1)?;
            return Ok(());
        };
        // So many items don't fit the memory.
        *times = times.checked_add(1).ok_or(Memory::too_many())?;
        Ok(())
    }

    /// One fewer item shows this COUNT.
    #[tactic(auto, unfolding(crate::specs::link_tallies::Tallies::shown_less, tables::specs::Tables::at))]
    fn hide(&mut self, count: u32)
        ensures { self.new ≡ record self.old { shown = shown_less self.old.shown count } }
    {
        let left = match self.shown.get(&count) {
            Some(times) => times.saturating_sub(1),
            None => 0,
        };
        if left == 0 {
            self.shown.take(&count);
            return;
        }
        if let Some(times) = self.shown.get_mut(&count) {
            *times = left;
        }
    }

    fn enter(&mut self, count: Option<u32>) -> Result<(), Memory>
        ensures ok { OnOk result (self.new ≡ entered_by self.old count) }
        ensures err { OnErr result (self.new ≡ self.old) }
    {
        // So many items don't fit the memory.
        let items = self.items.checked_add(1).ok_or(Memory::too_many())?;
        if let Some(count) = count {
            self.show(count)?;
        }
        self.items = items;
        Ok(())
    }

    fn leave(&mut self, count: Option<u32>)
        ensures { self.new ≡ left_by self.old count }
    {
        if let Some(count) = count {
            self.hide(count);
        }
        self.items = self.items.saturating_sub(1);
    }

    fn least_shown(&self) -> Option<u32>
        ensures { result ≡ key_in (first_entry self.now.shown) }
    {
        match self.shown.first() {
            Some((count, _)) => Some(*count),
            None => None,
        }
    }
}

/// The tallies of all bearers and directions. Contracts see the list of them in the order of their keys.
#[derive(Drop)]
pub struct Tallies {
    tallies: Table<EntityKey, Tally>,
    alloc: Global,
}

impl Model for Tallies {
    ghost use Rattle.links.specs.link_tallies.Tallies.{Tallies};
    ghost use Rattle.links.specs.link_tallies.inside.Sound.{AreSound};

    ghost Value = { Tallies };

    ghost view = { λ t. t.tallies };

    ghost invariant = { λ t. AreSound t.tallies };
}

impl Tallies {
    /// No items.
    pub fn new(alloc: Global) -> Tallies
        ensures { result ≡ [] }
    {
        Tallies {
            tallies: Table::new(alloc),
            alloc,
        }
    }

    /// One more item, with the COUNT that it shows.
    #[tactic(auto, unfolding(crate::specs::link_tallies::Tallies::entered, tables::specs::Tables::at))]
    pub fn enter(&mut self, key: EntityKey, count: Option<u32>) -> Result<(), Memory>
        ensures ok { OnOk result (self.new ≡ entered self.old key count) }
        ensures err { OnErr result (self.new ≡ self.old) }
    {
        let Some(tally) = self.tallies.get_mut(&key) else {
            return self.begin(key, count);
        };
        tally.enter(count)?;
        Ok(())
    }

    fn begin(&mut self, key: EntityKey, count: Option<u32>) -> Result<(), Memory>
        ensures ok { OnOk result (self.new ≡ put entity_cmp self.old key (entered_by no_items count)) }
        ensures err { OnErr result (self.new ≡ self.old) }
    {
        let mut tally = Tally::new(self.alloc);
        tally.enter(count)?;
        self.tallies.put(key, tally)?;
        Ok(())
    }

    /// One item fewer.
    #[tactic(auto, unfolding(crate::specs::link_tallies::Tallies::left))]
    pub fn leave(&mut self, key: EntityKey, count: Option<u32>)
        ensures { self.new ≡ left self.old key count }
    {
        let Some(tally) = self.tallies.get_mut(&key) else {
            return;
        };
        tally.leave(count);
    }

    /// These items go.
    #[tactic(auto, unfolding(crate::specs::link_tallies::Tallies::all_left))]
    pub fn leave_all<X: Drop>(&mut self, items: Queue<Item<X>>)
        ensures { self.new ≡ all_left self.old items }
    {
        let mut items = items;
        while let Some(item) = items.take() {
            self.leave(item.key, item.count);
        }
    }

    /// These items go.
    #[tactic(auto, unfolding(crate::specs::link_tallies::Tallies::all_left))]
    pub fn leave_each<X: Drop>(&mut self, items: VecDeque<Item<X>>)
        ensures { self.new ≡ all_left self.old items.items }
    {
        let mut items = items;
        while let Some(item) = items.pop_front() {
            self.leave(item.key, item.count);
        }
    }

    /// How many items there are of this bearer and direction.
    #[tactic(auto, unfolding(crate::specs::link_tallies::Tallies::number, tables::specs::Tables::at))]
    pub fn number(&self, key: EntityKey) -> u64
        ensures { result ≡ number self.now key }
    {
        match self.tallies.get(&key) {
            Some(tally) => tally.items,
            None => 0,
        }
    }

    /// The least COUNT that an item of this bearer and direction shows.
    #[tactic(auto, unfolding(crate::specs::link_tallies::Tallies::least_shown, tables::specs::Tables::at))]
    pub fn least_shown(&self, key: EntityKey) -> Option<u32>
        ensures first { result ≡ least_shown self.now key }
        ensures least { IsLeast (times self.now key) result }
    {
        match self.tallies.get(&key) {
            Some(tally) => tally.least_shown(),
            None => None,
        }
    }
}
