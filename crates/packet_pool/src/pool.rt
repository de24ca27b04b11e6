//! The pool: each packet in a block of its own, under its key.

ghost use Rattle.std.specs.Prelude.{◌≡◌, ◌<◌, ◌≤◌, ◌+◌, length, Some, None, IsSome, IfOk, OnOk, OnErr};
ghost use Rattle.std.specs.Option.{option_map};
ghost use Rattle.std.specs.Ordering.{nat_cmp};
ghost use Rattle.gnb_types.specs.Orders.{entity_cmp};
ghost use Rattle.tables.specs.Tables.{find};
ghost use Rattle.pdcp_defs.specs.pool_defs.Pools.{quota, used, reserved, packet_of, packet_at, new_pool, with_quota, without_quota, with_packet, without_packet, with_place, without_place, is_parked, IsPool};

use crate::accounts::{Accounts, QuotaError, QuotaUsed};
use crate::contents::{Content, mark, octets};
use crate::region::{BLOCK, Region};
use gnb_types::items::Memory;
use gnb_types::keys::EntityKey;
use std::alloc::Global;
use std::marker::Model;

/// What a packet is counted under: a bearer of a terminal in one direction.
pub type Key = EntityKey;

/// A packet in a pool. It can't be let go: `take` gives its block back, and `park` leaves it with the pool. Contracts see its number.
#[derive(Debug)]
pub struct Ref {
    block: u32,
}

impl Model for Ref {
    ghost use Rattle.std.specs.Prelude.{ℕ};

    ghost Value = { ℕ };

    ghost view = { λ r. r.block };
}

/// A pool of blocks of `BLOCK` octets. Contracts see its references, quotas and parked places.
#[derive(Drop)]
pub struct Pool {
    region: Region,
    contents: Vec<Option<Content>>,
    accounts: Accounts,
}

impl Model for Pool {
    ghost use Rattle.pdcp_defs.specs.pool_defs.Pools.{PoolState};
    ghost use Rattle.packet_pool.specs.inside.Pools.{state, IsConsistent};

    ghost Value = { PoolState };

    ghost view = { λ p. state p.region p.contents.items p.accounts };

    ghost invariant = { λ p. IsConsistent p.region p.contents.items p.accounts };
}

impl Pool {
    /// A pool of so many blocks, at most 65,536 (128 MiB), each of them free, and without quotas. All memory is taken here, but for the
    /// entry of a quota.
    pub fn new(alloc: Global, blocks: u32) -> Result<Pool, Memory>
        requires { blocks ≤ 65536 }
        ensures { IfOk result (λ pool. pool ≡ new_pool blocks) }
    {
        let region = Region::new(alloc, blocks)?;
        let contents = Vec::from_elem(alloc, None, blocks as usize)?;
        Ok(Pool {
            region,
            contents,
            accounts: Accounts::new(alloc),
        })
    }

    /// Sets so many blocks apart for a key that has no quota. At `NoQuota`, where the quotas would pass the blocks, and out of memory
    /// nothing has changed.
    pub fn reserve_quota(&mut self, key: Key, n: u32) -> Result<(), QuotaError>
        requires { find entity_cmp self.old.quotas key ≡ None }
        ensures ok { OnOk result (self.new ≡ with_quota self.old key n) }
        ensures room { OnOk result (reserved self.old + n ≤ self.old.blocks) }
        ensures err { OnErr result (self.new ≡ self.old) }
        ensures no_quota { result ≡ Err QuotaError.NoQuota → self.old.blocks < reserved self.old + n }
        ensures refused { self.old.blocks < reserved self.old + n → result ≡ Err QuotaError.NoQuota }
    {
        let blocks = self.contents.len() as u32;
        self.accounts.reserve(key, n, blocks)
    }

    /// Gives up the quota of a key of which no block is used.
    pub fn release_quota(&mut self, key: Key)
        requires { used self.old key ≡ 0 }
        ensures { self.new ≡ without_quota self.old key }
    {
        self.accounts.release(&key);
    }

    /// The blocks that are set apart for a key, 0 without a quota.
    pub fn quota(&self, key: Key) -> u32
        ensures value { result ≡ quota self.now key }
        ensures sound { IsPool BLOCK self.now }
    {
        self.accounts.quota(&key)
    }

    /// The blocks of a key that are used, by references that are held or parked.
    pub fn used(&self, key: Key) -> u32
        ensures value { result ≡ used self.now key }
        ensures sound { IsPool BLOCK self.now }
    {
        self.accounts.used(&key)
    }

    /// Puts a packet of at most `BLOCK` octets into a free block. It is refused where the key uses its whole quota, and only there:
    /// the quotas never pass the blocks, so one is free.
    pub fn put(&mut self, key: Key, bytes: &[u8]) -> Result<Ref, QuotaUsed>
        requires { length bytes.now ≤ BLOCK }
        ensures sound { IsPool BLOCK self.old }
        ensures fresh { IfOk result (λ r. find nat_cmp self.old.refs r ≡ None) }
        ensures ok { IfOk result (λ r. self.new ≡ with_packet self.old r (record { key = key; bytes = bytes.now })) }
        ensures room { OnOk result (used self.old key < quota self.old key) }
        ensures err { OnErr result (self.new ≡ self.old) }
        ensures refused { OnErr result (used self.old key ≡ quota self.old key) }
    {
        self.accounts.charge(&key)?;
        let block = self.region.take_first();
        self.region.write(block, bytes);
        self.contents[block as usize] = Some(Content {
            key,
            len: bytes.len() as u32,
            parked: false,
        });
        Ok(Ref { block })
    }

    /// The packet of a reference of this pool.
    pub fn bytes(&self, r: &Ref) -> &[u8]
        requires { IsSome (packet_of self.now r.now) }
        ensures value { option_map (λ packet. packet.bytes) (packet_of self.now r.now) ≡ Some result.now }
        ensures sound { IsPool BLOCK self.now }
    {
        octets(&self.region, &self.contents, r.block)
    }

    /// Gives the block of a reference of this pool back.
    pub fn take(&mut self, r: Ref)
        requires { IsSome (packet_of self.old r) }
        ensures sound { IsPool BLOCK self.old }
        ensures taken { self.new ≡ without_packet self.old r }
    {
        let Ref { block } = r;
        let Some(content) = self.contents[block as usize].take() else {
            return;
        };
        self.accounts.discharge(&content.key);
        self.region.give_back(block);
    }

    /// Leaves a reference of this pool with the pool, and gives the place where it lies.
    pub fn park(&mut self, r: Ref) -> u32
        requires { IsSome (packet_of self.old r) }
        ensures sound { IsPool BLOCK self.old }
        ensures fresh { find nat_cmp self.old.parked result ≡ None }
        ensures parked { self.new ≡ with_place self.old result r }
    {
        let Ref { block } = r;
        mark(&mut self.contents, block, true);
        block
    }

    /// The packet at a parked place.
    pub fn parked_bytes(&self, place: u32) -> &[u8]
        requires { IsSome (packet_at self.now place) }
        ensures value { option_map (λ packet. packet.bytes) (packet_at self.now place) ≡ Some result.now }
        ensures sound { IsPool BLOCK self.now }
    {
        octets(&self.region, &self.contents, place)
    }

    /// Gives the reference at a parked place back.
    pub fn unpark(&mut self, place: u32) -> Ref
        requires { IsSome (packet_at self.old place) }
        ensures sound { IsPool BLOCK self.old }
        ensures there { find nat_cmp self.old.parked place ≡ Some result }
        ensures unparked { self.new ≡ without_place self.old place }
    {
        mark(&mut self.contents, place, false);
        Ref { block: place }
    }
}
