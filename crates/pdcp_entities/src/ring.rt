//! COUNTs in a row, each with the place of a parked packet, if one is held.

ghost use Rattle.std.specs.Prelude.{◌≡◌, ℕ, ◌+◌, ◌-◌, ◌^◌, ◌<◌, ◌≤◌, ◌==◌, nat_le, List, [], ◌∷◌, ◌++◌, length, find, map, drop, slice_get, slice_set, unwrap_or, max, IfOk, IfSome, is_some, Some, None, if◌then◌else◌, IsTrue, ◌↔◌};
ghost use Rattle.pdcp_defs.specs.Senders.{is_above, last_of};
ghost use Rattle.std.specs.Ordering.{nat_cmp};
ghost use Rattle.tables.specs.Tables.{put};
ghost use Rattle.circular_buffer.specs.Buffer.{buffer, last_item};
ghost use Rattle.pdcp_entities.specs.inside.Rings.{held, held_from, padded, is_empty_slot, IsFirstFull, IsLastFull};

use circular_buffer::HeapCircularBuffer;
use gnb_types::bits::Bits;
use gnb_types::items::Memory;
use std::alloc::{AllocError, Global};

/// Slots for COUNTs in a row, the first for `first`. A slot holds the place of a parked packet, or nothing.
#[derive(Drop)]
pub(crate) struct Ring {
    pub(crate) first: u32,
    pub(crate) slots: HeapCircularBuffer<Option<u32>>,
}

impl Ring {
    pub(crate) fn new(alloc: Global, first: u32, capacity: u16) -> Result<Ring, AllocError>
        ensures first { IfOk result (λ r. r.first ≡ first) }
        ensures slots { IfOk result (λ r. r.slots ≡ buffer [] capacity) }
    {
        let slots = HeapCircularBuffer::with_capacity(alloc, usize::from(capacity))?;
        Ok(Ring { first, slots })
    }

    pub(crate) fn len(&self) -> usize
        ensures len { result ≡ length self.now.slots.items }
        ensures within { result ≤ self.now.slots.capacity }
    {
        self.slots.len()
    }

    /// Whether there is a slot, and the first is for a COUNT not above this one.
    pub(crate) fn begins_by(&self, count: u32) -> bool
        ensures { IsTrue result
            ↔ ((0 < length self.now.slots.items) × (self.now.first ≤ count)) }
    {
        !self.slots.is_empty() && self.first <= count
    }

    /// Adds empty slots until there are `len`.
    fn pad(&mut self, len: usize)
        requires { len ≤ self.old.slots.capacity }
        ensures first { self.new.first ≡ self.old.first }
        ensures slots { self.new.slots ≡ buffer (padded self.old.slots.items len) self.old.slots.capacity }
    {
        while self.slots.len() < len {
            self.slots.push_back(None);
        }
    }

    /// Holds a place for a COUNT after all that have a slot.
    pub(crate) fn push(&mut self, count: u32, place: u32)
        requires after { self.old.first + length self.old.slots.items ≤ count }
        requires room { count < self.old.first + self.old.slots.capacity }
        ensures first { self.new.first ≡ self.old.first }
        ensures slots { self.new.slots
            ≡ buffer (padded self.old.slots.items (count - self.old.first) ++ Some place ∷ []) self.old.slots.capacity }
    {
        self.pad((count - self.first) as usize);
        self.slots.push_back(Some(place));
    }

    /// Holds a place for a COUNT after all that are held. Where none is, the slots begin with this COUNT.
    pub(crate) fn append(&mut self, count: u32, place: u32)
        requires after { 0 < length self.old.slots.items
            → self.old.first + length self.old.slots.items ≤ count }
        requires room { 0 < length self.old.slots.items
            → count < self.old.first + self.old.slots.capacity }
        requires capacity { 0 < self.old.slots.capacity }
        ensures held { held self.new ≡ held self.old ++ (count, place) ∷ [] }
        ensures first_full { IsFirstFull self.old.slots.items → IsFirstFull self.new.slots.items }
        ensures last_full { IsLastFull self.new.slots.items }
        ensures end { self.new.first + length self.new.slots.items ≡ count + 1 }
        ensures first { self.new.first
            ≡ (if length self.old.slots.items == 0 then count else self.old.first) }
        ensures capacity { self.new.slots.capacity ≡ self.old.slots.capacity }
    {
        if self.slots.is_empty() {
            self.first = count;
        }
        self.push(count, place);
    }

    /// Whether this COUNT is above all that are held.
    pub(crate) fn ends_before(&self, count: u32) -> bool
        requires in_range { self.now.first + length self.now.slots.items < 2 ^ 32 }
        requires last { IsLastFull self.now.slots.items }
        ensures { result ≡ is_above count (last_of None (held self.now)) }
    {
        self.slots.is_empty() || self.first + self.slots.len() as u32 <= count
    }

    /// Holds a place for a COUNT whose slot is empty.
    pub(crate) fn fill(&mut self, count: u32, place: u32)
        requires from { self.old.first ≤ count }
        requires within { count < self.old.first + length self.old.slots.items }
        ensures first { self.new.first ≡ self.old.first }
        ensures slots { self.new.slots
            ≡ buffer (slice_set self.old.slots.items (count - self.old.first) (Some place)) self.old.slots.capacity }
    {
        if let Some(slot) = self.slots.get_mut((count - self.first) as usize) {
            *slot = Some(place);
        }
    }

    /// Holds a place for a COUNT that has none.
    pub(crate) fn place(&mut self, count: u32, place: u32)
        requires from { self.old.first ≤ count }
        requires room { count < self.old.first + self.old.slots.capacity }
        requires empty { unwrap_or (slice_get self.old.slots.items (count - self.old.first)) None ≡ None }
        requires last { IsLastFull self.old.slots.items }
        ensures held { held self.new ≡ put nat_cmp (held self.old) count place }
        ensures more { length (held self.new) ≡ length (held self.old) + 1 }
        ensures last_full { IsLastFull self.new.slots.items }
        ensures first { self.new.first ≡ self.old.first }
        ensures end { self.new.first + length self.new.slots.items
            ≡ max (self.old.first + length self.old.slots.items) (count + 1) }
        ensures capacity { self.new.slots.capacity ≡ self.old.slots.capacity }
    {
        if ((count - self.first) as usize) < self.slots.len() {
            self.fill(count, place);
        } else {
            self.push(count, place);
        }
    }

    /// Empties the slot at an index, and gives what it held.
    pub(crate) fn empty(&mut self, i: usize) -> Option<u32>
        requires { i < length self.old.slots.items }
        ensures value { result ≡ unwrap_or (slice_get self.old.slots.items i) None }
        ensures first { self.new.first ≡ self.old.first }
        ensures slots { self.new.slots
            ≡ buffer (slice_set self.old.slots.items i None) self.old.slots.capacity }
    {
        match self.slots.get_mut(i) {
            Some(slot) => slot.take(),
            None => None,
        }
    }

    /// Takes the first slot out.
    pub(crate) fn pop(&mut self) -> Option<u32>
        requires some { 0 < length self.old.slots.items }
        requires in_range { self.old.first + 1 < 2 ^ 32 }
        ensures first { self.new.first ≡ self.old.first + 1 }
        ensures slots { self.old.slots.items ≡ result ∷ self.new.slots.items }
        ensures capacity { self.new.slots.capacity ≡ self.old.slots.capacity }
    {
        self.first += 1;
        self.slots.pop_front().flatten()
    }

    /// Takes empty slots out at the front.
    pub(crate) fn trim_front(&mut self)
        requires in_range { self.old.first + length self.old.slots.items < 2 ^ 32 }
        requires last { IsLastFull self.old.slots.items }
        ensures held { held_from self.new.first self.new.slots.items
            ≡ held_from self.old.first self.old.slots.items }
        ensures first_full { IsFirstFull self.new.slots.items }
        ensures last_full { IsLastFull self.new.slots.items }
        ensures end { self.new.first + length self.new.slots.items
            ≡ self.old.first + length self.old.slots.items }
        ensures after { self.old.first ≤ self.new.first }
        ensures capacity { self.new.slots.capacity ≡ self.old.slots.capacity }
    {
        while let Some(None) = self.slots.front() {
            self.pop();
        }
    }

    /// Takes empty slots out at the end.
    pub(crate) fn trim_back(&mut self)
        ensures held { held_from self.new.first self.new.slots.items
            ≡ held_from self.old.first self.old.slots.items }
        ensures last_full { IsLastFull self.new.slots.items }
        ensures first { self.new.first ≡ self.old.first }
        ensures shorter { length self.new.slots.items ≤ length self.old.slots.items }
        ensures capacity { self.new.slots.capacity ≡ self.old.slots.capacity }
    {
        while self.is_last_empty() {
            self.slots.pop_back();
        }
    }

    fn is_last_empty(&self) -> bool
        ensures { result ≡ is_empty_slot (last_item self.now.slots.items) }
    {
        match self.slots.back() {
            Some(slot) => slot.is_none(),
            None => false,
        }
    }

    /// What a slot holds.
    fn slot(&self, i: usize) -> Option<u32>
        ensures { result ≡ unwrap_or (slice_get self.now.slots.items i) None }
    {
        self.slots.get(i).copied().flatten()
    }

    /// The place that is held for a COUNT.
    pub(crate) fn at(&self, count: u32) -> Option<u32>
        requires { self.now.first ≤ count }
        ensures { result ≡ unwrap_or (slice_get self.now.slots.items (count - self.now.first)) None }
    {
        self.slot((count - self.first) as usize)
    }

    /// Whether each slot after the first holds a place.
    pub(crate) fn bits_after_first(&self, alloc: Global) -> Result<Bits, Memory>
        ensures { IfOk result (λ bits. bits ≡ map is_some (drop 1 self.now.slots.items)) }
    {
        let mut bits = Bits::new(alloc);
        for i in 1..self.slots.len() {
            bits.push(self.slot(i).is_some())?;
        }
        Ok(bits)
    }

    /// The least COUNT not below `from` for which a place is held, and that place.
    pub(crate) fn least_from(&self, from: u32) -> Option<(u32, u32)>
        requires { self.now.first + length self.now.slots.items < 2 ^ 32 }
        ensures { result ≡ find (λ e. nat_le from e.0) (held_from self.now.first self.now.slots.items) }
    {
        let start = from.saturating_sub(self.first) as usize;
        for i in start..self.slots.len() {
            if let Some(place) = self.slot(i) {
                return Some((self.first + i as u32, place));
            }
        }
        None
    }
}
