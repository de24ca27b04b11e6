//! What one leg holds.

ghost use Rattle.std.specs.Prelude.{◌≡◌, ◌+◌, ◌++◌, ◌∷◌, ◌==◌, length, fold, min, map, OnOk, IfOk};
ghost use Rattle.dup_defs.specs.dup_run_defs.Run.{LegItems, no_items, size_of, above, counts_on, added};
ghost use Rattle.dup_bearer.specs.legs.Legs.{IsPacket, CarriesOne, ConfirmsOne};

use gnb_types::items::Memory;
use gnb_types::octets::Octets;
use std::alloc::Global;
use std::marker::Model;
use std::mem;
use tables::queue::Queue;

/// The COUNTs of items that were carried, and items that are to be carried. Contracts see the items of a leg.
#[derive(Drop)]
pub struct Items {
    carried: Queue<u32>,
    coming: Queue<(u32, Octets)>,
}

impl Model for Items {
    ghost use Rattle.dup_defs.specs.dup_run_defs.Run.{LegItems};
    ghost use Rattle.dup_bearer.specs.legs.Legs.{items_state, AreItems};

    ghost Value = { LegItems };

    ghost view = { λ i. items_state i.carried i.coming };

    ghost invariant = { λ i. AreItems i.carried i.coming };
}

impl Items {
    /// Nothing.
    pub fn new(alloc: Global) -> Items
        ensures { result ≡ no_items }
    {
        Items {
            carried: Queue::new(alloc),
            coming: Queue::new(alloc),
        }
    }

    /// How many items there are.
    pub fn len(&self) -> u32
        ensures { result ≡ size_of self.now }
    {
        (self.carried.len() + self.coming.len()) as u32
    }

    /// How many were carried.
    pub fn carried(&self) -> usize
        ensures { result ≡ length self.now.carried }
    {
        self.carried.len()
    }

    /// How many are to be carried.
    pub fn coming(&self) -> usize
        ensures { result ≡ length self.now.coming }
    {
        self.coming.len()
    }

    /// An item is put. That there are more than 2^32 is out of memory.
    pub fn put(&mut self, count: u32, packet: Octets) -> Result<(), Memory>
        requires { IsPacket packet }
        ensures { OnOk result (self.new ≡ added self.old count packet) }
    {
        // So many items would take more memory than there is.
        if self.len() == u32::MAX {
            return Err(Memory::too_many());
        }
        self.coming.push((count, packet))
    }

    /// The oldest item that wasn't carried is carried.
    pub fn carry(&mut self) -> Result<Option<(u32, Octets)>, Memory>
        ensures { IfOk result (CarriesOne self.old self.new) }
    {
        let Some((count, packet)) = self.coming.take() else {
            return Ok(None);
        };
        self.carried.push(count)?;
        Ok(Some((count, packet)))
    }

    /// The oldest item that was carried leaves.
    pub fn confirm(&mut self) -> Option<u32>
        ensures { ConfirmsOne self.old self.new result }
    {
        self.carried.take()
    }

    /// Items up to a COUNT that weren't carried leave; it says how many.
    pub fn lose_to(&mut self, alloc: Global, count: u32) -> Result<u32, Memory>
        ensures { IfOk result (λ lost. (self.new ≡ record self.old { coming = above count self.old.coming })
            × (lost + length (above count self.old.coming) ≡ length self.old.coming)) }
    {
        let before = self.coming.len();
        let coming = mem::replace(&mut self.coming, Queue::new(alloc));
        self.coming = above(alloc, coming, count)?;
        Ok((before - self.coming.len()) as u32)
    }

    /// The least of a COUNT and those of the items.
    pub fn least(&self, count: u32) -> u32
        ensures { result ≡ fold min count (counts_on self.now) }
    {
        least_coming(&self.coming, least_carried(&self.carried, count))
    }
}

/// The items above a COUNT.
fn above(
    alloc: Global,
    items: Queue<(u32, Octets)>,
    count: u32,
) -> Result<Queue<(u32, Octets)>, Memory>
    ensures { IfOk result (λ left. left ≡ above count items) }
{
    let mut items = items;
    let mut left = Queue::new(alloc);
    while let Some((item, packet)) = items.take() {
        if item > count {
            left.push((item, packet))?;
        }
    }
    Ok(left)
}

fn least_carried(carried: &Queue<u32>, count: u32) -> u32
    ensures { result ≡ fold min count carried.now }
{
    let mut least = count;
    for count in carried.iter() {
        least = least.min(*count);
    }
    least
}

fn least_coming(coming: &Queue<(u32, Octets)>, count: u32) -> u32
    ensures { result ≡ fold min count (map (λ e. e.0) coming.now) }
{
    let mut least = count;
    for (count, _) in coming.iter() {
        least = least.min(*count);
    }
    least
}
