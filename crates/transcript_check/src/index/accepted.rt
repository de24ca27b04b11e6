//! What accepted events set and offered.

ghost use Rattle.std.specs.Prelude.{◌≡◌, ◌↔◌, [], List, length, IfOk, OnOk, IsTrue, IfSome, IsSomeAnd, Some, slice_get};
ghost use Rattle.scenario_text.specs.declared.event.Event.{Event as Happened};
ghost use Rattle.transcript_defs.specs.Packets.{Reading as ReadingOf, IsAmong};
ghost use Rattle.transcript_check.specs.Readings.{says_of};
ghost use Rattle.transcript_check.specs.inside.Accepted.{AreAccepted, AcceptsEvent, SetsPlan, AddsOffer, ReadsAs, offered_on};

use crate::index::offers::Offers;
use crate::packets::{Reading, read_put};
use gnb_types::items::Memory;
use gnb_types::keys::EntityKey;
use gnb_types::names::{SnBits, UeId};
use gnb_types::plans::Plan;
use scenario_text::event::Event;
use scenario_text::line::{Item, Link};
use std::alloc::Global;
use tables::table::Table;

/// What an item says, and how many bits the numbers of its terminal have.
#[derive(Drop)]
pub struct ItemReading<'a> {
    pub sn: SnBits,
    pub says: Reading<'a>,
}

/// What accepted events set of each terminal, the first of them, and what they offered on each bearer and direction.
#[derive(Drop)]
pub struct Accepted {
    plans: Table<UeId, Plan>,
    offers: Table<EntityKey, Offers>,
}

impl Accepted {
    /// No event was accepted.
    pub fn new(alloc: Global) -> Accepted
        ensures { AreAccepted [] result }
    {
        Accepted {
            plans: Table::new(alloc),
            offers: Table::new(alloc),
        }
    }

    /// One more event is accepted.
    pub fn accept(&mut self, alloc: Global, event: &Event) -> Result<(), Memory>
        ensures { OnOk result (AcceptsEvent event.now self.old self.new) }
    {
        match event {
            Event::Static { plan } => self.set(plan),
            Event::Attach { plan } => self.set(plan),
            Event::Offer {
                ue,
                bearer,
                dir,
                packet,
            } => {
                let key = EntityKey {
                    ue: *ue,
                    bearer: *bearer,
                    dir: *dir,
                };
                self.offer(alloc, key, packet.as_slice())
            }
            _ => Ok(()),
        }
    }

    fn set(&mut self, plan: &Plan) -> Result<(), Memory>
        ensures plan { OnOk result (SetsPlan plan.now self.old.plans self.new.plans) }
        ensures offers { OnOk result (self.new.offers ≡ self.old.offers) }
    {
        if !self.plans.has(&plan.ue) {
            self.plans.put(plan.ue, *plan)?;
        }
        Ok(())
    }

    fn offer(&mut self, alloc: Global, key: EntityKey, packet: &[u8]) -> Result<(), Memory>
        ensures offers { OnOk result (AddsOffer key packet.now self.old.offers self.new.offers) }
        ensures plans { OnOk result (self.new.plans ≡ self.old.plans) }
    {
        let Some(offers) = self.offers.get_mut(&key) else {
            let mut offers = Offers::new(alloc);
            offers.add(alloc, packet)?;
            self.offers.put(key, offers)?;
            return Ok(());
        };
        offers.add(alloc, packet)?;
        Ok(())
    }

    /// What an item says; None where its bearer isn't set, or its octets have no layout of its link.
    pub fn read<'a>(&self, link: Link, item: &'a Item) -> Option<ItemReading<'a>>
        ensures found { IfSome result (λ x. (happened : List Happened) → AreAccepted happened self.now
            → ReadsAs happened link item.now x.sn (says_of x.says)) }
        ensures only { (happened : List Happened) → AreAccepted happened self.now → (reading : ReadingOf happened link item.now)
            → IsSomeAnd result (λ x. (reading.plan.sn ≡ x.sn) × (reading.says ≡ says_of x.says)) }
    {
        let Some(plan) = self.plans.get(&item.ue) else {
            return None;
        };
        if item.bearer.0 > plan.bearers {
            return None;
        }
        match read_put(link, item.dir, plan.sn, item.bytes.as_slice()) {
            Some(says) => Some(ItemReading { sn: plan.sn, says }),
            None => None,
        }
    }

    /// How many packets were offered.
    #[tactic(auto, unfolding(tables::specs::Tables::at))]
    pub fn len(&self, key: EntityKey) -> usize
        ensures { result ≡ length (offered_on self.now key) }
    {
        match self.offers.get(&key) {
            Some(offers) => offers.len(),
            None => 0,
        }
    }

    /// Whether the packet of this COUNT is this one.
    #[tactic(auto, unfolding(tables::specs::Tables::at))]
    pub fn is_at(&self, key: EntityKey, count: u32, packet: &[u8]) -> bool
        ensures { IsTrue result ↔ (slice_get (offered_on self.now key) count ≡ Some packet.now) }
    {
        match self.offers.get(&key) {
            Some(offers) => offers.is_at(count, packet),
            None => false,
        }
    }

    /// Whether this packet was offered.
    #[tactic(auto, unfolding(tables::specs::Tables::at))]
    pub fn has(&self, alloc: Global, key: EntityKey, packet: &[u8]) -> Result<bool, Memory>
        ensures { IfOk result (λ has. IsTrue has ↔ IsAmong (offered_on self.now key) (Some packet.now)) }
    {
        match self.offers.get(&key) {
            Some(offers) => offers.has(alloc, packet),
            None => Ok(false),
        }
    }
}
