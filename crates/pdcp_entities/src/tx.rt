//! The sending entity: the next COUNT, and the packets that nothing confirmed (TS 38.323, 5.2.1, 5.4.2).

ghost use Rattle.std.specs.Prelude.{◌≡◌, ℕ, ◌+◌, ◌≤◌, ◌↔◌, true, false, nat_le, length, find, Some, None, IsSome, IsOk, IsTrue, IfOk, IfErr, OnOk};
ghost use Rattle.pdcp_defs.specs.Senders.{first, has_room, window, numbered, may_restore, restored, emptied};
ghost use Rattle.pdcp_defs.specs.Counts.{count_below};
ghost use Rattle.pdcp_defs.specs.pool_defs.Pools.{packet_of};
ghost use Rattle.pdcp_entities.specs.Packets.{AreParked, OthersStay, Parks, Frees, bytes_of};
ghost use Rattle.pdcp_entities.specs.Entities.{new_tx, sender_in, refuses_number, confirmed_number, confirmed_report, named_by_number, named_by_report};

use crate::counts::{count_below, half_space};
use crate::freeing::{free_reported, free_to};
use crate::ring::Ring;
use gnb_types::items::Memory;
use gnb_types::names::SnBits;
use packet_pool::{Pool, Ref};
use std::alloc::Global;
use std::marker::Model;
use thiserror::Error;

/// Why a packet gets no number.
#[derive(Clone, Copy, Debug, PartialEq, Eq, Error)]
pub enum NumberError {
    #[error("as many packets as the window allows are unconfirmed")]
    WindowFull,
    #[error("the entity is frozen")]
    Frozen,
    #[error("the last COUNT was given")]
    CountSpent,
}

/// The COUNT is not in the window below the next one, or not above all that are held.
#[derive(Clone, Copy, Debug, PartialEq, Eq, Error)]
#[error("the COUNT is outside the window, or not above all that are held")]
pub struct OutsideWindow;

/// A sending entity. Contracts see its sender, with places in the pool for packets, and whether it is frozen.
#[derive(Drop)]
pub struct Tx {
    sn: SnBits,
    quota: u16,
    frozen: bool,
    next: u32,
    unconfirmed: Ring,
}

impl Model for Tx {
    ghost use Rattle.pdcp_entities.specs.Entities.{TxState};
    ghost use Rattle.pdcp_entities.specs.inside.Views.{tx_state, IsTx};

    ghost Value = { TxState };

    ghost view = { λ t. tx_state t.sn t.quota t.frozen t.next t.unconfirmed };

    ghost invariant = { λ t. IsTx t.sn t.quota t.next t.unconfirmed };
}

impl Tx {
    /// An entity that gives `next` first, and holds at most `quota` packets.
    pub fn new(alloc: Global, sn: SnBits, next: u32, quota: u16) -> Result<Tx, Memory>
        requires least { 4 ≤ quota }
        requires most { quota ≤ 4096 }
        ensures { IfOk result (λ tx. tx ≡ new_tx sn next quota) }
    {
        let unconfirmed = Ring::new(alloc, next, quota)?;
        Ok(Tx {
            sn,
            quota,
            frozen: false,
            next,
            unconfirmed,
        })
    }

    /// Gives a packet the next COUNT, and holds it until it is confirmed. The packet is handed back where it gets none.
    pub fn number(&mut self, pool: &mut Pool, r: Ref) -> Result<u32, (Ref, NumberError)>
        requires parked { AreParked pool.old self.old.sender.unconfirmed }
        requires given { IsSome (packet_of pool.old r) }
        ensures count { IfOk result (λ count. count ≡ self.old.sender.next) }
        ensures ok { OnOk result (refuses_number self.old ≡ None) }
        ensures held { OnOk result ((place : ℕ)
            × (self.new ≡ record self.old { sender = numbered self.old.sender place })
            × Parks r (self.old.sender.next, place) pool.old pool.new) }
        ensures octets { OnOk result (sender_in pool.new self.new
            ≡ numbered (sender_in pool.old self.old) (bytes_of (packet_of pool.old r))) }
        ensures err { IfErr result (λ e. (refuses_number self.old ≡ Some e.1)
            × (e.0 ≡ r) × (self.new ≡ self.old) × (pool.new ≡ pool.old)) }
        ensures parked { AreParked pool.new self.new.sender.unconfirmed }
    {
        if self.frozen {
            return Err((r, NumberError::Frozen));
        }
        if !self.has_room() {
            return Err((r, NumberError::WindowFull));
        }
        if self.next == u32::MAX {
            return Err((r, NumberError::CountSpent));
        }
        let count = self.next;
        let place = pool.park(r);
        self.unconfirmed.append(count, place);
        self.next += 1;
        Ok(count)
    }

    /// Holds a packet that another entity numbered. It is handed back where its COUNT is not in the window below the next
    /// one, or not above all that are held.
    pub fn restore(
        &mut self,
        pool: &mut Pool,
        count: u32,
        r: Ref,
    ) -> Result<(), (Ref, OutsideWindow)>
        requires parked { AreParked pool.old self.old.sender.unconfirmed }
        requires given { IsSome (packet_of pool.old r) }
        ensures ok { IsOk result
            ↔ IsTrue (may_restore self.old.sn self.old.quota self.old.sender count) }
        ensures held { OnOk result ((place : ℕ)
            × (self.new ≡ record self.old { sender = restored self.old.sender count place })
            × Parks r (count, place) pool.old pool.new) }
        ensures octets { OnOk result (sender_in pool.new self.new
            ≡ restored (sender_in pool.old self.old) count (bytes_of (packet_of pool.old r))) }
        ensures err { IfErr result (λ e.
            (e.0 ≡ r) × (self.new ≡ self.old) × (pool.new ≡ pool.old)) }
        ensures parked { AreParked pool.new self.new.sender.unconfirmed }
    {
        if !self.may_restore(count) {
            return Err((r, OutsideWindow));
        }
        let place = pool.park(r);
        self.unconfirmed.append(count, place);
        Ok(())
    }

    /// Confirms all up to the COUNT with this number (read modulo the sequence space) among the last space of COUNTs below the
    /// next one, and says how many packets that freed. Where that COUNT would be below 0 it frees none.
    pub fn confirm_to(&mut self, pool: &mut Pool, number: u32) -> u32
        requires { AreParked pool.old self.old.sender.unconfirmed }
        ensures sender { self.new
            ≡ record self.old { sender = confirmed_number self.old.sn self.old.sender number } }
        ensures count { result ≡ length (named_by_number self.old.sn self.old.sender number) }
        ensures freed { Frees (named_by_number self.old.sn self.old.sender number)
            pool.old pool.new }
        ensures octets { sender_in pool.new self.new
            ≡ confirmed_number self.old.sn (sender_in pool.old self.old) number }
        ensures parked { AreParked pool.new self.new.sender.unconfirmed }
    {
        match self.count_below(number) {
            Some(count) => {
                let freed = free_to(&mut self.unconfirmed, pool, count);
                self.unconfirmed.trim_front();
                freed
            }
            None => 0,
        }
    }

    /// Confirms what a status report does: all COUNTs below the first missing one, and each whose bit is set.
    pub fn confirm_report(&mut self, pool: &mut Pool, fmc: u32, bits: &[u8]) -> u32
        requires { AreParked pool.old self.old.sender.unconfirmed }
        ensures sender { self.new
            ≡ record self.old { sender = confirmed_report self.old.sender fmc bits.now } }
        ensures count { result ≡ length (named_by_report self.old.sender fmc bits.now) }
        ensures freed { Frees (named_by_report self.old.sender fmc bits.now) pool.old pool.new }
        ensures octets { sender_in pool.new self.new
            ≡ confirmed_report (sender_in pool.old self.old) fmc bits.now }
        ensures parked { AreParked pool.new self.new.sender.unconfirmed }
    {
        let freed = free_reported(&mut self.unconfirmed, pool, fmc, bits);
        self.unconfirmed.trim_back();
        self.unconfirmed.trim_front();
        freed
    }

    /// The least COUNT not below `from` that nothing confirmed, and the place of its packet.
    pub fn unconfirmed(&self, from: u32) -> Option<(u32, u32)>
        ensures { result ≡ find (λ e. nat_le from e.0) self.now.sender.unconfirmed }
    {
        self.unconfirmed.least_from(from)
    }

    /// The COUNT that is given next.
    pub fn next(&self) -> u32
        ensures { result ≡ self.now.sender.next }
    {
        self.next
    }

    /// From here on nothing is numbered.
    pub fn freeze(&mut self)
        ensures { self.new ≡ record self.old { frozen = true } }
    {
        self.frozen = true;
    }

    pub fn resume(&mut self)
        ensures { self.new ≡ record self.old { frozen = false } }
    {
        self.frozen = false;
    }

    /// Gives up what is held.
    pub fn clear(&mut self, pool: &mut Pool)
        requires { AreParked pool.old self.old.sender.unconfirmed }
        ensures sender { self.new ≡ record self.old { sender = emptied self.old.sender } }
        ensures freed { Frees self.old.sender.unconfirmed pool.old pool.new }
    {
        free_to(&mut self.unconfirmed, pool, u32::MAX);
        self.unconfirmed.trim_front();
    }

    /// How many COUNTs may be under way.
    fn window(&self) -> u32
        ensures { result ≡ window self.now.sn self.now.quota }
    {
        (half_space(self.sn) - 1).min(u32::from(self.quota))
    }

    /// The least COUNT that nothing confirmed, or the next one.
    fn first(&self) -> u32
        ensures first { result ≡ first self.now.sender }
        ensures within { result ≤ self.now.sender.next }
    {
        if self.unconfirmed.len() == 0 {
            self.next
        } else {
            self.unconfirmed.first
        }
    }

    #[tactic(auto, unfolding(pdcp_defs::specs::Senders::has_room))]
    fn has_room(&self) -> bool
        ensures { result ≡ has_room self.now.sn self.now.quota self.now.sender }
    {
        self.next - self.first() < self.window()
    }

    #[tactic(auto, unfolding(pdcp_defs::specs::Senders::may_restore))]
    fn may_restore(&self, count: u32) -> bool
        ensures { result ≡ may_restore self.now.sn self.now.quota self.now.sender count }
    {
        self.next.saturating_sub(self.window()) <= count
            && count < self.next
            && self.unconfirmed.ends_before(count)
    }

    fn count_below(&self, number: u32) -> Option<u32>
        ensures { result ≡ count_below self.now.sn self.now.sender.next number }
    {
        count_below(self.sn, self.next, number)
    }
}
