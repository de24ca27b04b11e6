//! Both legs.

ghost use Rattle.std.specs.Prelude.{◌≡◌, ◌+◌, ◌&&◌, ◌++◌, length, fold, min, OnOk, IfOk};
ghost use Rattle.dup_defs.specs.dup_run_defs.Run.{no_items, size_of, above, counts_on, added, holds_nothing};
ghost use Rattle.dup_bearer.specs.legs.Legs.{no_legs, leg_of, with_leg, IsPacket, CarriesOne, ConfirmsOne};

use crate::legs::items::Items;
use dup_defs::types::leg::Leg;
use gnb_types::items::Memory;
use gnb_types::octets::Octets;
use std::alloc::Global;
use std::marker::Model;

/// The items of both legs.
#[derive(Drop)]
pub struct Legs {
    first: Items,
    second: Items,
}

impl Model for Legs {
    ghost use Rattle.dup_bearer.specs.legs.Legs.{LegsState, legs_state};

    ghost Value = { LegsState };

    ghost view = { λ l. legs_state l.first l.second };
}

impl Legs {
    /// Both hold nothing.
    pub fn new(alloc: Global) -> Legs
        ensures { result ≡ no_legs }
    {
        Legs {
            first: Items::new(alloc),
            second: Items::new(alloc),
        }
    }

    /// How many items a leg holds.
    pub fn len(&self, leg: Leg) -> u32
        ensures { result ≡ size_of (leg_of leg self.now) }
    {
        match leg {
            Leg::First => self.first.len(),
            Leg::Second => self.second.len(),
        }
    }

    /// How many items of a leg were carried.
    pub fn carried(&self, leg: Leg) -> usize
        ensures { result ≡ length (leg_of leg self.now).carried }
    {
        match leg {
            Leg::First => self.first.carried(),
            Leg::Second => self.second.carried(),
        }
    }

    /// How many items of a leg are to be carried.
    pub fn coming(&self, leg: Leg) -> usize
        ensures { result ≡ length (leg_of leg self.now).coming }
    {
        match leg {
            Leg::First => self.first.coming(),
            Leg::Second => self.second.coming(),
        }
    }

    /// Whether both hold nothing.
    pub fn are_empty(&self) -> bool
        ensures { result ≡ (holds_nothing self.now.first && holds_nothing self.now.second) }
    {
        self.first.len() == 0 && self.second.len() == 0
    }

    /// An item is put on a leg.
    pub fn put(&mut self, leg: Leg, count: u32, packet: Octets) -> Result<(), Memory>
        requires { IsPacket packet }
        ensures { OnOk result (self.new ≡ with_leg leg (added (leg_of leg self.old) count packet) self.old) }
    {
        match leg {
            Leg::First => self.first.put(count, packet),
            Leg::Second => self.second.put(count, packet),
        }
    }

    /// The oldest item of a leg that wasn't carried is carried.
    pub fn carry(&mut self, leg: Leg) -> Result<Option<(u32, Octets)>, Memory>
        ensures { IfOk result (λ item. CarriesOne (leg_of leg self.old) (leg_of leg self.new) item
            × (self.new ≡ with_leg leg (leg_of leg self.new) self.old)) }
    {
        match leg {
            Leg::First => self.first.carry(),
            Leg::Second => self.second.carry(),
        }
    }

    /// The oldest item of a leg that was carried leaves it.
    pub fn confirm(&mut self, leg: Leg) -> Option<u32>
        ensures one { ConfirmsOne (leg_of leg self.old) (leg_of leg self.new) result }
        ensures other { self.new ≡ with_leg leg (leg_of leg self.new) self.old }
    {
        match leg {
            Leg::First => self.first.confirm(),
            Leg::Second => self.second.confirm(),
        }
    }

    /// All items leave a leg.
    pub fn lose_all(&mut self, alloc: Global, leg: Leg)
        ensures { self.new ≡ with_leg leg no_items self.old }
    {
        match leg {
            Leg::First => self.first = Items::new(alloc),
            Leg::Second => self.second = Items::new(alloc),
        }
    }

    /// Items up to a COUNT that weren't carried leave a leg; it says how many.
    pub fn lose_to(&mut self, alloc: Global, leg: Leg, count: u32) -> Result<u32, Memory>
        ensures { IfOk result (λ lost.
            (self.new ≡ with_leg leg (record (leg_of leg self.old) { coming = above count (leg_of leg self.old).coming }) self.old)
            × (lost + length (above count (leg_of leg self.old).coming) ≡ length (leg_of leg self.old).coming)) }
    {
        match leg {
            Leg::First => self.first.lose_to(alloc, count),
            Leg::Second => self.second.lose_to(alloc, count),
        }
    }

    /// The least of a COUNT and those of all items.
    pub fn least(&self, count: u32) -> u32
        ensures { result ≡ fold min count (counts_on self.now.first ++ counts_on self.now.second) }
    {
        self.second.least(self.first.least(count))
    }
}
