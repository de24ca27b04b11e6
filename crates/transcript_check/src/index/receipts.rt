//! Which COUNTs were received, and how many packets were delivered.

ghost use Rattle.std.specs.Prelude.{◌≡◌, ◌+◌, [], OnOk, is_some};
ghost use Rattle.gnb_types.specs.Orders.{entity_cmp};
ghost use Rattle.tables.specs.Tables.{find, put};
ghost use Rattle.transcript_check.specs.inside.Receipts.{receipt_cmp, receipt, delivered_on};

use gnb_types::items::Memory;
use gnb_types::keys::EntityKey;
use std::alloc::Global;
use tables::table::Table;

/// A COUNT of a bearer and direction.
#[derive(Clone, Copy, PartialEq, Eq, PartialOrd, Ord)]
pub struct Receipt {
    pub key: EntityKey,
    pub count: u32,
}

/// Which COUNTs brought a packet to the receiver, and how many packets were delivered there.
#[derive(Drop)]
pub struct Receipts {
    received: Table<Receipt, ()>,
    delivered: Table<EntityKey, u64>,
}

impl Receipts {
    /// Nothing was received.
    pub fn new(alloc: Global) -> Receipts
        ensures received { result.received ≡ [] }
        ensures delivered { result.delivered ≡ [] }
    {
        Receipts {
            received: Table::new(alloc),
            delivered: Table::new(alloc),
        }
    }

    pub fn was_received(&self, key: EntityKey, count: u32) -> bool
        ensures { result ≡ is_some (find receipt_cmp self.now.received (receipt key count)) }
    {
        self.received.has(&Receipt { key, count })
    }

    /// How many packets were delivered.
    #[tactic(auto, unfolding(tables::specs::Tables::at))]
    pub fn delivered(&self, key: EntityKey) -> u64
        ensures { result ≡ delivered_on self.now key }
    {
        match self.delivered.get(&key) {
            Some(number) => *number,
            None => 0,
        }
    }

    /// A packet with this COUNT is received.
    pub fn receive(&mut self, key: EntityKey, count: u32) -> Result<(), Memory>
        ensures received { OnOk result (self.new.received ≡ put receipt_cmp self.old.received (receipt key count) tt) }
        ensures delivered { OnOk result (self.new.delivered ≡ self.old.delivered) }
    {
        self.received.put(Receipt { key, count }, ())?;
        Ok(())
    }

    /// The packet of this COUNT is delivered, the last so far.
    pub fn deliver(&mut self, key: EntityKey, count: u32) -> Result<(), Memory>
        ensures delivered { OnOk result (self.new.delivered ≡ put entity_cmp self.old.delivered key (count + 1)) }
        ensures received { OnOk result (self.new.received ≡ self.old.received) }
    {
        self.delivered.put(key, u64::from(count) + 1)?;
        Ok(())
    }
}
