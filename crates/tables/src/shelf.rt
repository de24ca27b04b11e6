//! A shelf: a table whose values stand in a slab, so that a place that was used once is used again.

ghost use Rattle.std.specs.Prelude.{◌≡◌, ◌==◌, [], length, is_some, None, OnOk, OnErr, IfOk, IfNone, IfSome, option_copied};
ghost use Rattle.std.specs.Option.{option_copied_mut};
ghost use Rattle.std.specs.Borrow.{sem};
ghost use Rattle.tables.specs.Tables.{find, put, without};
ghost use Rattle.tables.specs.ShelfLends.{lends_get};

use crate::table::Table;
use gnb_types::items::Memory;
use slab::Slab;
use std::alloc::Global;
use std::marker::Model;
use std::mem;

/// Values under keys, in the order of the keys. Contracts see the list of its entries in that order, as of a table.
#[derive(Drop)]
pub struct Shelf<K: Ord, V> {
    index: Table<K, usize>,
    slots: Slab<V>,
}

impl<K: Ord, V> Model for Shelf<K, V> {
    ghost use Rattle.std.specs.Prelude.{List};
    ghost use Rattle.slab.specs.Slab.{get};
    ghost use Rattle.tables.specs.Shelves.{seen, IsShelf};

    ghost Value = { List (K × V) };

    ghost view = { λ s. seen (get s.slots) s.index };

    ghost invariant = { λ s. IsShelf K.cmp (get s.slots) s.index };
}

impl<K: Ord, V> Shelf<K, V> {
    /// No entries.
    pub fn new(alloc: Global) -> Shelf<K, V>
        ensures { result ≡ [] }
    {
        Shelf {
            index: Table::new(alloc),
            slots: Slab::new(alloc),
        }
    }

    pub fn has(&self, key: &K) -> bool
        ensures { result ≡ is_some (find K.cmp self.now key.now) }
    {
        self.index.has(key)
    }

    /// The value at this key.
    pub fn get(&self, key: &K) -> Option<&V>
        ensures { option_copied result ≡ find K.cmp self.now key.now }
    {
        match self.index.get(key) {
            Some(slot) => self.slots.get(*slot),
            None => None,
        }
    }

    /// The value at this key, to be changed.
    pub fn get_mut(&mut self, key: &K) -> Option<&mut V>
        ensures* writes_back { sem 𝓛 (lends_get K.row V.row K.Ord self.entry key.now result) }
        ensures value { option_copied_mut result ≡ find K.cmp self.old key.now }
        // To put back what is there changes nothing.
        ensures same { IfSome result (λ x. put K.cmp self.old key.now x.now ≡ self.old) }
    {
        let slot = match self.index.get(key) {
            Some(slot) => *slot,
            None => return None,
        };
        self.slots.get_mut(slot)
    }
}

impl<K: Ord + Drop, V: Drop> Shelf<K, V> {
    /// Puts a value at this key, and gives the value that stood there. A key that has one takes no memory.
    pub fn put(&mut self, key: K, value: V) -> Result<Option<V>, Memory>
        ensures old { IfOk result (λ old. old ≡ find K.cmp self.old key) }
        ensures ok { OnOk result (self.new ≡ put K.cmp self.old key value) }
        ensures err { OnErr result (self.new ≡ self.old) }
        ensures absent { OnErr result (find K.cmp self.old key ≡ None) }
    {
        if let Some(old) = self.get_mut(&key) {
            return Ok(Some(mem::replace(old, value)));
        }
        self.add(key, value)?;
        Ok(None)
    }

    fn add(&mut self, key: K, value: V) -> Result<(), Memory>
        ensures ok { OnOk result (self.new ≡ put K.cmp self.old key value) }
        ensures err { OnErr result (self.new ≡ self.old) }
    {
        // What can fail stands first, so that an error leaves all as it was.
        self.slots.reserve(1)?;
        self.index.put(key, self.slots.vacant_key())?;
        self.slots.insert_reserved(value);
        Ok(())
    }

    /// Takes the entry of this key out, and gives its value.
    pub fn take(&mut self, key: &K) -> Option<V>
        ensures value { result ≡ find K.cmp self.old key.now }
        ensures rest { self.new ≡ without K.cmp self.old key.now }
        ensures none { IfNone result (self.new ≡ self.old) }
    {
        match self.index.take(key) {
            Some(slot) => self.slots.try_remove(slot),
            None => None,
        }
    }
}
