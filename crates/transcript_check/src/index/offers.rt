//! The packets that were offered on a bearer and direction.

ghost use Rattle.std.specs.Prelude.{◌≡◌, ◌++◌, ◌∷◌, ◌↔◌, [], length, IfOk, OnOk, IsTrue, Some, slice_get, option_copied};
ghost use Rattle.transcript_defs.specs.Packets.{IsAmong};

use crate::same::same_bytes;
use gnb_types::items::Memory;
use gnb_types::octets::Octets;
use std::alloc::Global;
use std::marker::Model;
use tables::table::Table;

/// Packets in the order in which they were offered, and which octets are among them. Contracts see the list of the packets.
#[derive(Drop)]
pub struct Offers {
    packets: Vec<Octets>,
    known: Table<Vec<u8>, ()>,
}

impl Model for Offers {
    ghost use Rattle.std.specs.Prelude.{List, ℕ};
    ghost use Rattle.transcript_check.specs.inside.Offers.{IsKnown};

    ghost Value = { List (List ℕ) };

    ghost view = { λ o. o.packets.items };

    ghost invariant = { λ o. IsKnown o.known o.packets.items };
}

impl Offers {
    /// No packets.
    pub fn new(alloc: Global) -> Offers
        ensures { result ≡ [] }
    {
        Offers {
            packets: Vec::new(alloc),
            known: Table::new(alloc),
        }
    }

    pub fn len(&self) -> usize
        ensures { result ≡ length self.now }
    {
        self.packets.len()
    }

    /// Whether the packet of this COUNT is this one.
    pub fn is_at(&self, count: u32, packet: &[u8]) -> bool
        ensures { IsTrue result ↔ (slice_get self.now count ≡ Some packet.now) }
    {
        match packet_at(&self.packets, count as usize) {
            Some(offered) => same_bytes(offered.as_slice(), packet),
            None => false,
        }
    }

    /// Whether this packet is among those that were offered.
    pub fn has(&self, alloc: Global, packet: &[u8]) -> Result<bool, Memory>
        ensures { IfOk result (λ has. IsTrue has ↔ IsAmong self.now (Some packet.now)) }
    {
        let key = Vec::from_slice(alloc, packet)?;
        Ok(self.known.has(&key))
    }

    /// Puts a packet at the end.
    pub fn add(&mut self, alloc: Global, packet: &[u8]) -> Result<(), Memory>
        ensures { OnOk result (self.new ≡ self.old ++ packet.now ∷ []) }
    {
        let copy = Octets::from_slice(alloc, packet)?;
        let key = Vec::from_slice(alloc, packet)?;
        self.packets.push(copy)?;
        match self.known.put(key, ()) {
            Ok(_) => Ok(()),
            Err(error) => {
                self.packets.pop();
                Err(error)
            }
        }
    }
}

fn packet_at(packets: &Vec<Octets>, place: usize) -> Option<&Octets>
    ensures { option_copied result ≡ slice_get packets.now.items place }
{
    packets.as_slice().get(place)
}
