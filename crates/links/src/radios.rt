//! The radios of bearers: one for each bearer and direction of a terminal, for as long as the terminal is connected.

ghost use Rattle.std.specs.Prelude.{◌≡◌, length, IfOk, OnOk, OnErr, if◌then◌else◌, option_copied};
ghost use Rattle.gnb_types.specs.Orders.{ue_cmp, entity_cmp};
ghost use Rattle.tables.specs.Tables.{find, put, at, IsSorted};
ghost use Rattle.transport_defs.specs.Links.{silent, is_epoch, radio_items, radio_counts, least_of};
ghost use Rattle.links.specs.links_bag.Answers.{Answers, AnswersSurely, Shows};
ghost use Rattle.links.specs.Tunnels.{entity};
ghost use Rattle.links.specs.Radios.{no_radios, radio_of, with_item, put_item, head, carry, confirm, connected_in, failed, oldest_carried, first_of};

use crate::epochs::Epochs;
use crate::items::Item;
use crate::link_tallies::tallies::Tallies;
use crate::links_bag::error::LinkError;
use crate::radio::RadioQueue;
use gnb_types::items::Memory;
use gnb_types::keys::EntityKey;
use gnb_types::names::{BearerId, Dir, UeId};
use std::alloc::Global;
use std::marker::Model;
use tables::table::Table;

/// The radios. Contracts see them with what stands on each, and the epoch in which those of each terminal are connected.
#[derive(Drop)]
pub struct Radios {
    radios: Table<EntityKey, RadioQueue>,
    connected: Epochs,
    tallies: Tallies,
    alloc: Global,
}

impl Model for Radios {
    ghost use Rattle.std.specs.Prelude.{List, ℕ};
    ghost use Rattle.links.specs.Radios.{RadioLinks};

    ghost Value = { RadioLinks (List ℕ) };

    ghost use Rattle.links.specs.inside.Kept.{RadiosAreKept};

    ghost view = { λ r. record { radios = r.radios; connected = r.connected } };

    ghost invariant = { λ r. RadiosAreKept r.radios r.tallies };
}

#[tactic(auto, unfolding(tables::specs::Tables::at))]
fn add(radios: &mut Table<EntityKey, RadioQueue>, alloc: Global, item: Item) -> Result<(), Memory>
    ensures ok { OnOk result (radios.new ≡ put entity_cmp radios.old item.key (with_item (at entity_cmp silent radios.old item.key) item)) }
    ensures err { OnErr result (radios.new ≡ radios.old) }
{
    let key = item.key;
    let Some(radio) = radios.get_mut(&key) else {
        let mut radio = RadioQueue::new(alloc);
        radio.put(item)?;
        radios.put(key, radio)?;
        return Ok(());
    };
    radio.put(item)?;
    Ok(())
}

impl Radios {
    /// No radio is connected.
    pub fn new(alloc: Global) -> Result<Radios, Memory>
        ensures { IfOk result (λ radios. radios ≡ no_radios) }
    {
        let connected = Epochs::new(alloc)?;
        Ok(Radios {
            radios: Table::new(alloc),
            connected,
            tallies: Tallies::new(alloc),
            alloc,
        })
    }

    /// Puts an item on the radio of its bearer and direction. Where that isn't connected in this epoch the item is gone, and the answer
    /// is false.
    #[tactic(auto, unfolding(crate::specs::Radios::put_item))]
    pub fn put(&mut self, epoch: u32, item: Item) -> Result<bool, Memory>
        ensures connected { IfOk result (λ b. b ≡ is_epoch (find ue_cmp self.old.connected item.key.ue) epoch) }
        ensures ok { OnOk result (self.new ≡ put_item self.old epoch item) }
        ensures err { OnErr result (self.new ≡ self.old) }
    {
        if !self.is_connected(item.key.ue, epoch) {
            return Ok(false);
        }
        let (key, count) = (item.key, item.count);
        // What can fail stands first, so that an error leaves all as it was.
        self.tallies.enter(key, count)?;
        match add(&mut self.radios, self.alloc, item) {
            Ok(()) => Ok(true),
            Err(error) => {
                self.tallies.leave(key, count);
                Err(error)
            }
        }
    }

    fn is_connected(&self, ue: UeId, epoch: u32) -> bool
        ensures { result ≡ is_epoch (find ue_cmp self.now.connected ue) epoch }
    {
        match self.connected.of(ue) {
            Some(connected) => connected == epoch,
            None => false,
        }
    }

    /// The oldest item that isn't carried.
    #[tactic(auto, unfolding(crate::specs::Radios::head, tables::specs::Tables::at))]
    pub fn head(&self, ue: UeId, bearer: BearerId, dir: Dir) -> Result<&Item, LinkError>
        ensures { Shows (head self.now (entity ue bearer dir)) self.now result }
    {
        let Some(radio) = self.radios.get(&EntityKey { ue, bearer, dir }) else {
            return Err(LinkError::Empty);
        };
        match radio.head() {
            Some(item) => Ok(item),
            None => Err(LinkError::Empty),
        }
    }

    /// How many items stand on a radio.
    #[tactic(auto, unfolding(tables::specs::Tables::at))]
    pub fn length(&self, ue: UeId, bearer: BearerId, dir: Dir) -> u64
        ensures { result ≡ length (radio_of self.now (entity ue bearer dir)).items }
    {
        match self.radios.get(&EntityKey { ue, bearer, dir }) {
            Some(radio) => radio.len(),
            None => 0,
        }
    }

    /// Carries the oldest item that isn't carried, and gives a copy: the item stands there until it is confirmed.
    #[tactic(auto, unfolding(crate::specs::Radios::carry, tables::specs::Tables::at))]
    pub fn carry(&mut self, ue: UeId, bearer: BearerId, dir: Dir) -> Result<Item, LinkError>
        ensures { Answers (carry self.old (entity ue bearer dir)) self.old self.new result }
    {
        let Some(radio) = self.radios.get_mut(&EntityKey { ue, bearer, dir }) else {
            return Err(LinkError::Empty);
        };
        match radio.carry()? {
            Some(item) => Ok(item),
            None => Err(LinkError::Empty),
        }
    }

    /// Confirms the oldest carried item, which is gone then.
    #[tactic(auto, unfolding(crate::specs::Radios::confirm, tables::specs::Tables::at))]
    pub fn confirm(&mut self, ue: UeId, bearer: BearerId, dir: Dir) -> Result<Item, LinkError>
        ensures { AnswersSurely (confirm self.old (entity ue bearer dir)) self.old self.new result }
    {
        let Some(radio) = self.radios.get_mut(&EntityKey { ue, bearer, dir }) else {
            return Err(LinkError::Empty);
        };
        let Some(item) = radio.confirm() else {
            return Err(LinkError::Empty);
        };
        self.tallies.leave(item.key, item.count);
        Ok(item)
    }

    /// Connects the radios of a terminal in an epoch, or in none.
    pub fn connect(&mut self, ue: UeId, epoch: Option<u32>)
        ensures { self.new ≡ connected_in self.old ue epoch }
    {
        self.connected.connect(ue, epoch);
    }

    /// The oldest carried item, which the next confirmation is of.
    #[tactic(auto, unfolding(tables::specs::Tables::at))]
    pub fn carried(&self, ue: UeId, bearer: BearerId, dir: Dir) -> Option<&Item>
        ensures { option_copied result ≡ oldest_carried (radio_of self.now (entity ue bearer dir)) }
    {
        let radio = self.radios.get(&EntityKey { ue, bearer, dir })?;
        radio.oldest_carried()
    }

    /// The epoch in which the radios of a terminal are connected, if they are.
    pub fn epoch(&self, ue: UeId) -> Option<u32>
        ensures { result ≡ find ue_cmp self.now.connected ue }
    {
        self.connected.of(ue)
    }

    /// The first radio of a terminal, among those on which something was put since it was last lost.
    pub fn first_of(&self, ue: UeId) -> Option<EntityKey>
        ensures first { result ≡ first_of ue self.now.radios }
        ensures ordered { IsSorted entity_cmp self.now.radios }
    {
        for (key, _) in self.radios.iter() {
            if key.ue == ue {
                return Some(*key);
            }
        }
        None
    }

    /// All that stands on a radio is lost; the answer is how many items that were.
    #[tactic(auto, unfolding(tables::specs::Tables::at))]
    pub fn fail(&mut self, ue: UeId, bearer: BearerId, dir: Dir) -> u64
        ensures lost { result ≡ length (radio_of self.old (entity ue bearer dir)).items }
        ensures rest { self.new ≡ failed self.old (entity ue bearer dir) }
    {
        let Some(radio) = self.radios.take(&EntityKey { ue, bearer, dir }) else {
            return 0;
        };
        let items = radio.into_items();
        let lost = items.len() as u64;
        self.tallies.leave_each(items);
        lost
    }

    /// How many items of a bearer and direction stand on radios, and the least COUNT that one shows.
    pub fn standing(&self, ue: UeId, bearer: BearerId, dir: Dir) -> (u64, Option<u32>)
        ensures number { result.0 ≡ length (radio_items (entity ue bearer dir) self.now.radios) }
        ensures least { result.1 ≡ least_of (radio_counts (entity ue bearer dir) self.now.radios) }
    {
        let key = EntityKey { ue, bearer, dir };
        (self.tallies.number(key), self.tallies.least_shown(key))
    }
}
