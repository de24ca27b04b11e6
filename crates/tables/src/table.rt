//! A table: values under keys, in key order.

ghost use Rattle.std.specs.Prelude.{◌≡◌, ◌==◌, ◌^◌, ◌<◌, [], length, is_some, None, OnOk, OnErr, IfOk, IfNone, IfSome, option_copied, All, Some};
ghost use Rattle.std.specs.Option.{option_map, option_copied_mut};
ghost use Rattle.std.specs.Borrow.{sem};
ghost use Rattle.std.specs.Map.Iter.{ShowsInOrder, ShowsValuesInOrder, deref_pair};
ghost use Rattle.tables.specs.Tables.{find, put, without, first_entry, entry_after, IsSorted};
ghost use Rattle.tables.specs.Lends.{lends_get};

use gnb_types::items::Memory;
use std::alloc::Global;
use std::collections::BTreeMap;
use std::collections::btree_map::Iter;
use std::marker::Model;
use std::ops::Bound;

/// Values under keys, in the order of the keys. Contracts see the list of its entries in that order.
#[derive(Drop)]
pub struct Table<K: Ord, V> {
    map: BTreeMap<K, V, Global>,
}

impl<K: Ord, V> Model for Table<K, V> {
    ghost use Rattle.std.specs.Prelude.{List};

    ghost Value = { List (K × V) };

    ghost view = { λ t. t.map.entries };
}

impl<K: Ord, V> Table<K, V> {
    /// No entries.
    pub fn new(alloc: Global) -> Table<K, V>
        ensures { result ≡ [] }
    {
        Table {
            map: BTreeMap::new(alloc),
        }
    }

    pub fn len(&self) -> usize
        ensures len { result ≡ length self.now }
        ensures ordered { IsSorted K.cmp self.now }
    {
        self.map.len()
    }

    pub fn is_empty(&self) -> bool
        ensures { result ≡ (length self.now == 0) }
    {
        self.map.len() == 0
    }

    /// The value at this key.
    #[tactic(auto, unfolding(crate::specs::Tables::find))]
    pub fn get(&self, key: &K) -> Option<&V>
        ensures { option_copied result ≡ find K.cmp self.now key.now }
    {
        self.map.get(key)
    }

    #[tactic(auto, unfolding(crate::specs::Tables::find))]
    pub fn has(&self, key: &K) -> bool
        ensures { result ≡ is_some (find K.cmp self.now key.now) }
    {
        self.map.contains_key(key)
    }

    /// The value at this key, to be changed.
    #[tactic(auto, unfolding(crate::specs::Tables::find, crate::specs::Tables::put))]
    pub fn get_mut(&mut self, key: &K) -> Option<&mut V>
        ensures* writes_back { sem 𝓛 (lends_get K.row V.row K.Ord self.entry key.now result) }
        ensures value { option_copied_mut result ≡ find K.cmp self.old key.now }
        // To put back what is there changes nothing.
        ensures same { IfSome result (λ x. put K.cmp self.old key.now x.now ≡ self.old) }
    {
        self.map.get_mut(key)
    }

    /// The entry of the least key.
    #[tactic(auto, unfolding(crate::specs::Tables::first_entry))]
    pub fn first(&self) -> Option<(&K, &V)>
        ensures { option_map (λ e. (e.0.now, e.1.now)) result ≡ first_entry self.now }
    {
        self.map.iter().next()
    }

    /// The entry of the least key above this one, which need not be in the table.
    #[tactic(auto, unfolding(crate::specs::Tables::entry_after))]
    pub fn after(&self, key: &K) -> Option<(&K, &V)>
        ensures { option_map (λ e. (e.0.now, e.1.now)) result ≡ entry_after K.cmp self.now key.now }
    {
        self.map
            .range((Bound::Excluded(key), Bound::Unbounded))
            .next()
    }

    /// The entries in key order.
    pub fn iter(&self) -> Iter<'_, K, V>
        ensures rest { result ≡ self.now }
        ensures runs { ShowsInOrder (deref_pair {K = K} {X = V}) }
        ensures values_run { ShowsValuesInOrder (deref_pair {K = K} {X = V}) }
        ensures ordered { IsSorted K.cmp self.now }
        ensures fits { length self.now < 2 ^ 63 }
        ensures found { All (λ e. find K.cmp self.now e.0 ≡ Some e.1) self.now }
    {
        self.map.iter()
    }
}

impl<K: Ord + Drop, V: Drop> Table<K, V> {
    /// Puts a value at this key, and gives the value that stood there. A key that has one takes no memory.
    #[tactic(auto, unfolding(crate::specs::Tables::find, crate::specs::Tables::put))]
    pub fn put(&mut self, key: K, value: V) -> Result<Option<V>, Memory>
        ensures old { IfOk result (λ old. old ≡ find K.cmp self.old key) }
        ensures ok { OnOk result (self.new ≡ put K.cmp self.old key value) }
        ensures err { OnErr result (self.new ≡ self.old) }
        ensures absent { OnErr result (find K.cmp self.old key ≡ None) }
        ensures ordered { IsSorted K.cmp self.new }
    {
        let old = self.map.insert(key, value)?;
        Ok(old)
    }
}

impl<K: Ord + Drop, V> Table<K, V> {
    /// Takes the entry of this key out, and gives its value.
    #[tactic(auto, unfolding(crate::specs::Tables::find, crate::specs::Tables::without))]
    pub fn take(&mut self, key: &K) -> Option<V>
        ensures value { result ≡ find K.cmp self.old key.now }
        ensures rest { self.new ≡ without K.cmp self.old key.now }
        ensures none { IfNone result (self.new ≡ self.old) }
        ensures ordered { IsSorted K.cmp self.new }
    {
        // Its clause says that the keys were in order.
        let _ = self.map.len();
        self.map.remove(key)
    }
}
