//! The downlink of a bearer: packets are stored, and delivered in the order of their COUNTs (TS 38.323, 5.2.2).

ghost use Rattle.std.specs.Prelude.{◌≡◌, ◌<◌, ◌≤◌, [], length, IfOk, OnOk, OnErr};
ghost use Rattle.pdcp_defs.specs.Counts.{near_count};
ghost use Rattle.pdcp_defs.specs.Receivers.{new_receiver, received_bits};
ghost use Rattle.packet_pool.specs.declared.region.TheConstants.{BLOCK};
ghost use Rattle.pdcp_bearers.specs.ue_bearers.Receivers.{new_receiver_state, reception_of, received, IsDelivered, IsLeastStored};

use crate::ue_bearers::blocks::own_pool;
use gnb_types::bits::Bits;
use gnb_types::names::SnBits;
use gnb_types::octets::{Memory, Octets};
use packet_pool::{Key, Pool};
use pdcp::near;
use pdcp_entities::{Ahead, Rx, Taken};
use std::alloc::Global;
use std::marker::Model;

/// What became of a packet.
#[derive(Clone, Copy, PartialEq, Eq)]
pub enum Reception {
    /// It came before, or its number stands for no COUNT.
    Duplicate,
    /// Its COUNT is so far above the awaited one that there is no room for it yet.
    Ahead,
    Stored,
}

/// A packet that is delivered.
#[derive(Drop)]
pub struct Delivered {
    pub count: u32,
    pub packet: Octets,
}

/// What a bearer keeps for its downlink. Contracts see the receiver with the octets of its packets.
#[derive(Drop)]
pub struct Receiver {
    sn: SnBits,
    quota: u16,
    key: Key,
    pool: Pool,
    rx: Rx,
}

impl Model for Receiver {
    ghost use Rattle.pdcp_bearers.specs.ue_bearers.Receivers.{ReceiverState};
    ghost use Rattle.pdcp_bearers.specs.ue_bearers.inside.Views.{receiver_state, IsReceiver};

    ghost Value = { ReceiverState };

    ghost view = { λ d. receiver_state d.sn d.quota d.pool d.rx };

    ghost invariant = { λ d. IsReceiver d.sn d.quota d.key d.pool d.rx };
}

impl Receiver {
    /// COUNT 0 is awaited. It stores at most `quota` packets, and takes the blocks for them.
    pub fn new(alloc: Global, key: Key, sn: SnBits, quota: u16) -> Result<Receiver, Memory>
        requires least { 4 ≤ quota }
        requires most { quota ≤ 4096 }
        ensures { IfOk result (λ d. d ≡ new_receiver_state sn quota) }
    {
        let pool = own_pool(alloc, key, quota)?;
        let rx = Rx::new(alloc, sn, 0, quota)?;
        Ok(Receiver {
            sn,
            quota,
            key,
            pool,
            rx,
        })
    }

    /// Stores a packet under the COUNT of its number, unless it came before or has no room.
    pub fn take(&mut self, number: u32, packet: &[u8]) -> Reception
        requires { length packet.now ≤ BLOCK }
        ensures { (result, self.new)
            ≡ received self.old (near_count self.old.sn self.old.receiver.deliv number) packet.now }
    {
        reception_of(self.rx.take(&mut self.pool, self.key, number, packet))
    }

    /// Delivers the awaited packet, and awaits the next one. None where it isn't stored.
    pub fn deliver(&mut self, alloc: Global) -> Result<Option<Delivered>, Memory>
        ensures { IfOk result (λ d. IsDelivered self.old self.new d) }
    {
        let Some((count, r)) = self.rx.next(&mut self.pool) else {
            return Ok(None);
        };
        let packet = Octets::from_slice(alloc, self.pool.bytes(&r));
        self.pool.take(r);
        Ok(Some(Delivered {
            count,
            packet: packet?,
        }))
    }

    /// The status report of what was received: RX_DELIV, and whether each COUNT after it is stored, up to the last one that is.
    pub fn report(&self, alloc: Global) -> Result<(u32, Bits), Memory>
        ensures ok { IfOk result (λ r. (r.0 ≡ self.now.receiver.deliv)
            × (r.1 ≡ received_bits self.now.receiver)) }
        ensures short { length (received_bits self.now.receiver) ≤ 4096 }
    {
        self.rx.report(alloc)
    }

    /// The COUNT of a number near the awaited one, if there is one.
    pub fn count_of(&self, number: u32) -> Option<u32>
        ensures { result ≡ near_count self.now.sn self.now.receiver.deliv number }
    {
        near(self.sn, self.rx.deliv(), number)
    }

    /// The COUNT that is awaited, RX_DELIV.
    pub fn awaited(&self) -> u32
        ensures { result ≡ self.now.receiver.deliv }
    {
        self.rx.deliv()
    }

    /// How many packets are stored.
    pub fn len(&self) -> u32
        ensures { result ≡ length self.now.receiver.stored }
    {
        self.pool.used(self.key)
    }

    /// The least COUNT not below `from` that is stored, and its packet.
    pub fn stored(&self, from: u32) -> Option<(u32, &[u8])>
        ensures { IsLeastStored from self.now.receiver.stored result }
    {
        let Some((count, place)) = self.rx.stored(from) else {
            return None;
        };
        Some((count, self.pool.parked_bytes(place)))
    }

    /// This COUNT is awaited. Out of memory nothing changes.
    pub fn go_on_at(&mut self, alloc: Global, deliv: u32) -> Result<(), Memory>
        requires { self.old.receiver.stored ≡ [] }
        ensures ok { OnOk result (self.new ≡ record self.old { receiver = new_receiver deliv }) }
        ensures err { OnErr result (self.new ≡ self.old) }
    {
        self.rx = Rx::new(alloc, self.sn, deliv, self.quota)?;
        Ok(())
    }

    /// Gives up what is stored.
    pub fn clear(&mut self)
        ensures { self.new ≡ record self.old { receiver = record self.old.receiver { stored = [] } } }
    {
        // Its clause says that the pool is sound.
        let _ = self.pool.used(self.key);
        self.rx.clear(&mut self.pool);
    }
}

fn reception_of(taken: Result<Taken, Ahead>) -> Reception
    ensures { result ≡ reception_of taken }
{
    match taken {
        Ok(Taken { stored: true, .. }) => Reception::Stored,
        Ok(Taken { stored: false, .. }) => Reception::Duplicate,
        Err(Ahead) => Reception::Ahead,
    }
}
