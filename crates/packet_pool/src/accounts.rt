//! What each key may use of the pool, and what it uses.

ghost use Rattle.std.specs.Prelude.{◌≡◌, ◌+◌, ◌-◌, ◌<◌, ◌≤◌, [], None, OnOk, OnErr};
ghost use Rattle.gnb_types.specs.Orders.{entity_cmp};
ghost use Rattle.tables.specs.Tables.{find, put, without, at, IsSorted};
ghost use Rattle.packet_pool.specs.inside.Accounts.{total};

use gnb_types::items::Memory;
use gnb_types::keys::EntityKey;
use std::alloc::Global;
use std::marker::Model;
use tables::table::Table;
use thiserror::Error;

/// The quota of the key is used up.
#[derive(Clone, Copy, Debug, PartialEq, Eq, Error)]
#[error("the quota is used up")]
pub struct QuotaUsed;

/// Why a quota isn't reserved.
#[derive(Clone, Copy, Debug, PartialEq, Eq, Error)]
pub enum QuotaError {
    #[error("the quotas would pass the blocks")]
    NoQuota,
    #[error("out of memory")]
    Memory,
}

impl From<Memory> for QuotaError {
    ghost use Rattle.std.specs.Prelude.{◌≡◌};
    ghost use Rattle.packet_pool.specs.declared.accounts.QuotaError.TheVariants.{Memory as OutOfMemory};

    ghost from_gives = { λ _ error. error ≡ OutOfMemory };

    fn from(_error: Memory) -> QuotaError {
        QuotaError::Memory
    }
}

/// The blocks that a key may use, and those that it uses.
#[derive(Drop)]
struct Account {
    quota: u32,
    used: u32,
}

/// The account of each key. Contracts see the table of the quotas, and that of what is used of them.
#[derive(Drop)]
pub struct Accounts {
    table: Table<EntityKey, Account>,
    reserved: u32,
}

impl Model for Accounts {
    ghost use Rattle.packet_pool.specs.inside.Accounts.{AccountsState, quotas_of, used_of, AreAccounts};

    ghost Value = { AccountsState };

    ghost view = { λ a. record { quotas = quotas_of a.table; used = used_of a.table } };

    ghost invariant = { λ a. AreAccounts a.table a.reserved };
}

impl Accounts {
    /// No accounts.
    pub fn new(alloc: Global) -> Accounts
        ensures quotas { result.quotas ≡ [] }
        ensures used { result.used ≡ [] }
    {
        Accounts {
            table: Table::new(alloc),
            reserved: 0,
        }
    }

    pub fn quota(&self, key: &EntityKey) -> u32
        ensures { result ≡ at entity_cmp 0 self.now.quotas key.now }
    {
        match self.table.get(key) {
            Some(account) => account.quota,
            None => 0,
        }
    }

    pub fn used(&self, key: &EntityKey) -> u32
        ensures { result ≡ at entity_cmp 0 self.now.used key.now }
    {
        match self.table.get(key) {
            Some(account) => account.used,
            None => 0,
        }
    }

    /// Sets n of so many blocks apart for a key that has no quota.
    pub fn reserve(&mut self, key: EntityKey, n: u32, blocks: u32) -> Result<(), QuotaError>
        requires absent { find entity_cmp self.old.quotas key ≡ None }
        requires fits { total self.old.quotas ≤ blocks }
        ensures quotas { OnOk result (self.new.quotas ≡ put entity_cmp self.old.quotas key n) }
        ensures used { OnOk result (self.new.used ≡ put entity_cmp self.old.used key 0) }
        ensures room { OnOk result (total self.old.quotas + n ≤ blocks) }
        ensures sorted { OnOk result (IsSorted entity_cmp self.new.quotas) }
        ensures whole { OnOk result (total self.new.quotas ≡ total self.old.quotas + n) }
        ensures same { OnOk result (total self.new.used ≡ total self.old.used) }
        ensures err { OnErr result (self.new ≡ self.old) }
        ensures no_quota { result ≡ Err QuotaError.NoQuota → blocks < total self.old.quotas + n }
        ensures refused { blocks < total self.old.quotas + n → result ≡ Err QuotaError.NoQuota }
    {
        if n > blocks - self.reserved {
            return Err(QuotaError::NoQuota);
        }
        self.table.put(key, Account { quota: n, used: 0 })?;
        self.reserved += n;
        Ok(())
    }

    /// Closes the account of a key.
    pub fn release(&mut self, key: &EntityKey)
        requires { at entity_cmp 0 self.old.used key.now ≡ 0 }
        ensures quotas { self.new.quotas ≡ without entity_cmp self.old.quotas key.now }
        ensures used { self.new.used ≡ without entity_cmp self.old.used key.now }
        ensures sorted { IsSorted entity_cmp self.new.quotas }
        ensures whole { total self.new.quotas ≤ total self.old.quotas }
        ensures same { total self.new.used ≡ total self.old.used }
    {
        let Some(account) = self.table.take(key) else {
            return;
        };
        self.reserved -= account.quota;
    }

    /// Counts one more block of a key as used.
    pub fn charge(&mut self, key: &EntityKey) -> Result<(), QuotaUsed>
        ensures quotas { self.new.quotas ≡ self.old.quotas }
        ensures used { OnOk result (self.new.used ≡ put entity_cmp self.old.used key.now (at entity_cmp 0 self.old.used key.now + 1)) }
        ensures room { OnOk result (at entity_cmp 0 self.old.used key.now < at entity_cmp 0 self.old.quotas key.now) }
        ensures below { OnOk result (total self.old.used < total self.old.quotas) }
        ensures whole { OnOk result (total self.new.used ≡ total self.old.used + 1) }
        ensures err { OnErr result (self.new ≡ self.old) }
        ensures refused { OnErr result (at entity_cmp 0 self.old.used key.now ≡ at entity_cmp 0 self.old.quotas key.now) }
    {
        let Some(account) = self.table.get_mut(key) else {
            return Err(QuotaUsed);
        };
        if account.used >= account.quota {
            return Err(QuotaUsed);
        }
        account.used += 1;
        Ok(())
    }

    /// Counts one block of a key less as used.
    pub fn discharge(&mut self, key: &EntityKey)
        requires { 0 < at entity_cmp 0 self.old.used key.now }
        ensures quotas { self.new.quotas ≡ self.old.quotas }
        ensures used { self.new.used ≡ put entity_cmp self.old.used key.now (at entity_cmp 0 self.old.used key.now - 1) }
        ensures whole { total self.new.used + 1 ≡ total self.old.used }
    {
        let Some(account) = self.table.get_mut(key) else {
            return;
        };
        account.used -= 1;
    }
}
