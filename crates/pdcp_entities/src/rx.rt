//! The receiving entity: RX_DELIV, and the packets that are stored until they are delivered in order (TS 38.323, 5.2.2, 5.4.1).

ghost use Rattle.std.specs.Prelude.{◌≡◌, ℕ, ◌+◌, ◌≤◌, true, false, nat_le, length, find, Ok, Some, None, IsSome, IfOk, IfSome, IfNone, IfErr};
ghost use Rattle.pdcp_defs.specs.Receivers.{stored, deliver, with_packet, received_bits, is_duplicate, is_ahead};
ghost use Rattle.pdcp.specs.Near.{last_count};
ghost use Rattle.packet_pool.specs.declared.region.TheConstants.{BLOCK};
ghost use Rattle.pdcp_defs.specs.pool_defs.Pools.{used, quota, packet_of};
ghost use Rattle.pdcp_entities.specs.Packets.{AreParked, OthersStay, Puts, Unparks, Frees, bytes_of};
ghost use Rattle.pdcp_entities.specs.Entities.{new_rx, receiver_in, taken, stored_count, handed_up, advanced, cleared};

use crate::freeing::free_to;
use crate::ring::Ring;
use gnb_types::bits::Bits;
use gnb_types::items::Memory;
use gnb_types::names::SnBits;
use packet_pool::{Key, Pool, Ref};
use pdcp::near;
use std::alloc::Global;
use std::marker::Model;
use thiserror::Error;

/// What became of a packet: the COUNT that its number stands for, if one is found, and whether it is stored.
#[derive(Clone, Copy, PartialEq, Eq)]
pub struct Taken {
    pub count: Option<u32>,
    pub stored: bool,
}

/// The COUNT is so far above the awaited one that the quota has no room for it yet.
#[derive(Clone, Copy, Debug, PartialEq, Eq, Error)]
#[error("the COUNT is ahead of the quota")]
pub struct Ahead;

/// A receiving entity. Contracts see its receiver, with places in the pool for packets, and whether it is frozen.
#[derive(Drop)]
pub struct Rx {
    sn: SnBits,
    quota: u16,
    frozen: bool,
    stored: Ring,
}

impl Model for Rx {
    ghost use Rattle.pdcp_entities.specs.Entities.{RxState};
    ghost use Rattle.pdcp_entities.specs.inside.Views.{rx_state, IsRx};

    ghost Value = { RxState };

    ghost view = { λ r. rx_state r.sn r.quota r.frozen r.stored };

    ghost invariant = { λ r. IsRx r.quota r.stored };
}

impl Rx {
    /// An entity that awaits `deliv`, and stores at most `quota` packets.
    pub fn new(alloc: Global, sn: SnBits, deliv: u32, quota: u16) -> Result<Rx, Memory>
        requires least { 4 ≤ quota }
        requires most { quota ≤ 4096 }
        ensures { IfOk result (λ rx. rx ≡ new_rx sn deliv quota) }
    {
        let stored = Ring::new(alloc, deliv, quota)?;
        Ok(Rx {
            sn,
            quota,
            frozen: false,
            stored,
        })
    }

    /// Stores a packet under the COUNT of its number (read modulo the sequence space), unless no COUNT is found, or it is a
    /// duplicate.
    pub fn take(
        &mut self,
        pool: &mut Pool,
        key: Key,
        number: u32,
        packet: &[u8],
    ) -> Result<Taken, Ahead>
        requires sized { length packet.now ≤ BLOCK }
        requires parked { AreParked pool.old self.old.receiver.stored }
        requires quota { self.old.quota ≤ quota pool.old key }
        requires used { used pool.old key ≤ length self.old.receiver.stored }
        ensures result { result ≡ taken self.old number }
        ensures stored { IfSome (stored_count result) (λ count. (place : ℕ)
            × (self.new ≡ record self.old { receiver = stored self.old.receiver count place })
            × Puts (record { key = key; bytes = packet.now }) (count, place) pool.old pool.new) }
        ensures octets { IfSome (stored_count result) (λ count. receiver_in pool.new self.new
            ≡ stored (receiver_in pool.old self.old) count packet.now) }
        ensures dropped { IfNone (stored_count result)
            ((self.new ≡ self.old) × (pool.new ≡ pool.old)) }
        ensures parked { AreParked pool.new self.new.receiver.stored }
        ensures used { used pool.new key + length self.old.receiver.stored
            ≡ used pool.old key + length self.new.receiver.stored }
    {
        let Some(count) = near(self.sn, self.stored.first, number) else {
            return Ok(Taken {
                count: None,
                stored: false,
            });
        };
        if self.is_duplicate(count) {
            return Ok(Taken {
                count: Some(count),
                stored: false,
            });
        }
        if self.is_ahead(count) {
            return Err(Ahead);
        }
        self.store(pool, key, count, packet);
        Ok(Taken {
            count: Some(count),
            stored: true,
        })
    }

    /// Stores a packet under a COUNT that is no duplicate, and not ahead.
    fn store(&mut self, pool: &mut Pool, key: Key, count: u32, packet: &[u8])
        requires sized { length packet.now ≤ BLOCK }
        requires parked { AreParked pool.old self.old.receiver.stored }
        requires quota { self.old.quota ≤ quota pool.old key }
        requires used { used pool.old key ≤ length self.old.receiver.stored }
        requires new { is_duplicate self.old.receiver count ≡ false }
        requires room { is_ahead self.old.quota self.old.receiver count ≡ false }
        requires given { count ≤ last_count }
        ensures stored { (place : ℕ)
            × (self.new ≡ record self.old { receiver = stored self.old.receiver count place })
            × Puts (record { key = key; bytes = packet.now }) (count, place) pool.old pool.new }
        ensures octets { receiver_in pool.new self.new
            ≡ stored (receiver_in pool.old self.old) count packet.now }
        ensures parked { AreParked pool.new self.new.receiver.stored }
        ensures used { used pool.new key + length self.old.receiver.stored
            ≡ used pool.old key + length self.new.receiver.stored }
    {
        let stored = &mut self.stored;
        let place = match pool.put(key, packet) {
            Ok(r) => pool.park(r),
            // The key's quota is not used up, since a COUNT within the entity's quota isn't stored.
            Err(_) => unreachable!(),
        };
        stored.place(count, place);
    }

    /// Hands up the awaited packet, and awaits the next one. None where it isn't stored, or the entity is frozen.
    pub fn next(&mut self, pool: &mut Pool) -> Option<(u32, Ref)>
        requires { AreParked pool.old self.old.receiver.stored }
        ensures some { IfSome result (λ d. (place : ℕ) × (handed_up self.old ≡ Some (d.0, place))
            × (self.new ≡ record self.old { receiver = advanced self.old.receiver })
            × Unparks d.1 (d.0, place) pool.old pool.new) }
        ensures given { IfSome result (λ d. IsSome (packet_of pool.new d.1)) }
        ensures octets { IfSome result (λ d. deliver (receiver_in pool.old self.old)
            ≡ with_packet (d.0, bytes_of (packet_of pool.new d.1))
            (deliver (receiver_in pool.new self.new))) }
        ensures none { IfNone result ((handed_up self.old ≡ None)
            × (self.new ≡ self.old) × (pool.new ≡ pool.old)) }
        ensures parked { AreParked pool.new self.new.receiver.stored }
    {
        if self.frozen {
            return None;
        }
        let count = self.stored.first;
        let Some(place) = self.stored.at(count) else {
            return None;
        };
        self.stored.pop();
        Some((count, pool.unpark(place)))
    }

    /// The least COUNT not below `from` that is stored, and the place of its packet.
    pub fn stored(&self, from: u32) -> Option<(u32, u32)>
        ensures { result ≡ find (λ e. nat_le from e.0) self.now.receiver.stored }
    {
        self.stored.least_from(from)
    }

    /// The status report of what was received: RX_DELIV, and whether each COUNT after it is stored, up to the last one that is.
    pub fn report(&self, alloc: Global) -> Result<(u32, Bits), Memory>
        ensures { IfOk result (λ r. (r.0 ≡ self.now.receiver.deliv)
            × (r.1 ≡ received_bits self.now.receiver)) }
    {
        let bits = self.stored.bits_after_first(alloc)?;
        Ok((self.stored.first, bits))
    }

    /// From here on nothing is handed up.
    pub fn freeze(&mut self)
        ensures { self.new ≡ record self.old { frozen = true } }
    {
        self.frozen = true;
    }

    pub fn resume(&mut self)
        ensures { self.new ≡ record self.old { frozen = false } }
    {
        self.frozen = false;
    }

    /// The COUNT that is awaited, RX_DELIV.
    pub fn deliv(&self) -> u32
        ensures { result ≡ self.now.receiver.deliv }
    {
        self.stored.first
    }

    /// Gives up what is stored.
    pub fn clear(&mut self, pool: &mut Pool)
        requires { AreParked pool.old self.old.receiver.stored }
        ensures receiver { self.new ≡ record self.old { receiver = cleared self.old.receiver } }
        ensures freed { Frees self.old.receiver.stored pool.old pool.new }
    {
        let deliv = self.stored.first;
        free_to(&mut self.stored, pool, u32::MAX);
        self.stored.first = deliv;
    }

    fn is_duplicate(&self, count: u32) -> bool
        ensures { result ≡ is_duplicate self.now.receiver count }
    {
        count < self.stored.first || self.stored.at(count).is_some()
    }

    /// Whether a COUNT that is not below RX_DELIV has no room.
    #[tactic(auto, unfolding(pdcp_defs::specs::Receivers::is_ahead))]
    fn is_ahead(&self, count: u32) -> bool
        requires { self.now.receiver.deliv ≤ count }
        ensures { result ≡ is_ahead self.now.quota self.now.receiver count }
    {
        count - self.stored.first >= u32::from(self.quota)
    }
}
