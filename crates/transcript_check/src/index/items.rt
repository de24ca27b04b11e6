//! How what an item says fits what was offered.

ghost use Rattle.std.specs.Prelude.{◌≡◌, ◌↔◌, List, IfOk, IsTrue, option_copied, Some};
ghost use Rattle.scenario_text.specs.declared.event.Event.{Event as Happened};
ghost use Rattle.transcript_defs.specs.Packets.{Reading as ReadingOf, FitsCount, IsOfCount, IsNumberOf, IsAmong, packet_in, key_of as key_of_item};
ghost use Rattle.transcript_defs.specs.Rules.{ReadsWithCount, CarriesOffered};
ghost use Rattle.transcript_check.specs.Readings.{says_of};
ghost use Rattle.transcript_check.specs.inside.Accepted.{AreAccepted, offered_on};

use crate::index::accepted::{Accepted, ItemReading};
use gnb_types::items::Memory;
use gnb_types::keys::EntityKey;
use gnb_types::names::SnBits;
use scenario_text::line::{Item, Link};
use std::alloc::Global;

impl Accepted {
    /// Whether an item says anything.
    pub fn reads(&self, link: Link, item: &Item) -> bool
        ensures { (happened : List Happened) → AreAccepted happened self.now → IsTrue result ↔ ReadingOf happened link item.now }
    {
        match self.read(link, item) {
            Some(_) => true,
            None => false,
        }
    }

    /// Whether an item says anything, and that fits its COUNT.
    pub fn fits_count(&self, link: Link, item: &Item) -> bool
        ensures { (happened : List Happened) → AreAccepted happened self.now → IsTrue result ↔ ReadsWithCount happened link item.now }
    {
        match self.read(link, item) {
            Some(reading) => self.fits(item, &reading),
            None => false,
        }
    }

    fn fits(&self, item: &Item, reading: &ItemReading) -> bool
        ensures { IsTrue result ↔ FitsCount (offered_on self.now (key_of_item item.now)) reading.now.sn item.now.count (says_of reading.now.says) }
    {
        let Some(count) = item.count else {
            return true;
        };
        self.is_of_count(key_of(item), count, reading.says.packet())
            && is_number_of(reading.sn, count, reading.says.number())
    }

    fn is_of_count(&self, key: EntityKey, count: u32, packet: Option<&[u8]>) -> bool
        ensures { IsTrue result ↔ IsOfCount (offered_on self.now key) count (option_copied packet.entry) }
    {
        match packet {
            Some(packet) => self.is_at(key, count, packet),
            None => true,
        }
    }

    /// Whether an item says anything, and its packet, if it has one, was offered.
    pub fn carries_offered(&self, alloc: Global, link: Link, item: &Item) -> Result<bool, Memory>
        ensures { IfOk result (λ carries. (happened : List Happened) → AreAccepted happened self.now
            → IsTrue carries ↔ CarriesOffered happened link item.now) }
    {
        match self.read(link, item) {
            Some(reading) => self.has_packet(alloc, item, reading.says.packet()),
            None => Ok(false),
        }
    }

    fn has_packet(&self, alloc: Global, item: &Item, packet: Option<&[u8]>) -> Result<bool, Memory>
        ensures { IfOk result (λ has. IsTrue has ↔ IsAmong (offered_on self.now (key_of_item item.now)) (option_copied packet.entry)) }
    {
        let Some(packet) = packet else {
            return Ok(true);
        };
        // Most items show the COUNT of their packet, which is found at once.
        if self.shows_packet(item, packet) {
            return Ok(true);
        }
        self.has(alloc, key_of(item), packet)
    }

    fn shows_packet(&self, item: &Item, packet: &[u8]) -> bool
        ensures { IsTrue result → IsAmong (offered_on self.now (key_of_item item.now)) (Some packet.now) }
    {
        match item.count {
            Some(count) => self.is_at(key_of(item), count, packet),
            None => false,
        }
    }
}

fn key_of(item: &Item) -> EntityKey
    ensures { result ≡ key_of_item item.now }
{
    EntityKey {
        ue: item.ue,
        bearer: item.bearer,
        dir: item.dir,
    }
}

/// Whether a number, if there is one, is a COUNT modulo the sequence space.
fn is_number_of(sn: SnBits, count: u32, number: Option<u32>) -> bool
    ensures { IsTrue result ↔ IsNumberOf sn count number }
{
    let Some(number) = number else {
        return true;
    };
    match sn {
        SnBits::Len12 => number % 4_096 == count % 4_096,
        SnBits::Len18 => number % 262_144 == count % 262_144,
    }
}
