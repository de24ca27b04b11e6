//! A transmitting entity with two legs: packets are numbered while its window has room, whichever legs are up, and go on each leg of its
//! mode that is up; what nothing confirmed goes on a leg that comes to carry packets.

ghost use Rattle.std.specs.Prelude.{◌≡◌, ◌≤◌, [], ◌∷◌, length, false, None, IfOk, OnOk};
ghost use Rattle.pdcp.specs.declared.pdu.TheConstants.{PACKET_LIMIT};
ghost use Rattle.pdcp_defs.specs.Counts.{count_below as count_below_of};
ghost use Rattle.dup_defs.specs.Senders.{is_full, is_up, serves, in_mode, offered, confirmed, number_waiting, leg_is, mode_is, with_leg, enters, puts_on, all_on, rests};
ghost use Rattle.dup_bearer.specs.dup_pdcp.Entity.{new_tx, IsAnswer, IsOffered};
ghost use Rattle.dup_bearer.specs.dup_pdcp.inside.Views.{with_entity, IsPacket, IsGiven, IsKept, counted_of, IsNumbered, PutsMore, put_at};

use crate::dup_pdcp::counts::count_below;
use crate::dup_pdcp::ending::DupEnding;
use dup_defs::types::error::DupError;
use dup_defs::types::leg::{Leg, Mode};
use dup_defs::types::put::{Put, Puts};
use gnb_types::items::Memory;
use gnb_types::names::{BearerId, Dir, SnBits, UeId};
use gnb_types::octets::Octets;
use packet_pool::Key;
use pdcp::write_pdu;
use pdcp_bearers::ue_bearers::{Counted, Sender};
use std::alloc::Global;
use std::marker::Model;
use unit_messages::steps::StepError;

/// A transmitting entity. Contracts see the entity of the definitions, with the length of its numbers, its quota, and why it has ended.
#[derive(Drop)]
pub struct DupTx {
    sn: SnBits,
    quota: u16,
    /// What waits, and what nothing confirmed, whose copies lie in a pool.
    packets: Sender,
    mode: Mode,
    first_up: bool,
    second_up: bool,
    ended: Option<DupEnding>,
}

impl Model for DupTx {
    ghost use Rattle.dup_bearer.specs.dup_pdcp.Entity.{DupTxState};
    ghost use Rattle.dup_bearer.specs.dup_pdcp.inside.Views.{tx_state, marks, IsDupTx};

    ghost Value = { DupTxState };

    ghost view = { λ t. tx_state t.sn t.quota t.packets (marks t.mode t.first_up t.second_up) t.ended };

    ghost invariant = { λ t. IsDupTx t.sn t.quota t.packets t.ended };
}

/// The bearer's direction for the pool: there is one bearer, and it goes down.
fn own_key() -> Key {
    Key {
        ue: UeId(1),
        bearer: BearerId(1),
        dir: Dir::Dl,
    }
}

impl DupTx {
    /// No packets; both legs are up and in the mode, and the first COUNT is 0. It has at most `quota` packets, and takes the blocks for
    /// them.
    pub fn new(alloc: Global, sn: SnBits, quota: u16) -> Result<DupTx, Memory>
        requires least { 4 ≤ quota }
        requires most { quota ≤ 4096 }
        ensures { IfOk result (λ tx. tx ≡ new_tx sn quota) }
    {
        let packets = Sender::new(alloc, own_key(), sn, quota)?;
        Ok(DupTx {
            sn,
            quota,
            packets,
            mode: Mode::Both,
            first_up: true,
            second_up: true,
            ended: None,
        })
    }

    /// A packet of 1 to 2,048 octets is offered: it waits, and what can be numbered is numbered and put.
    pub fn offer(&mut self, alloc: Global, packet: &[u8]) -> Result<Puts, DupError>
        requires least { 1 ≤ length packet.now }
        requires most { length packet.now ≤ PACKET_LIMIT }
        ensures { IsOffered packet.now self.old self.new result }
    {
        if let Some(ending) = self.ended {
            return Err(ending.error());
        }
        if self.packets.used() >= u32::from(self.quota) {
            return Err(DupError::Quota);
        }
        let puts = self.offered(alloc, packet);
        self.keep(puts)
    }

    /// A leg confirmed the COUNT with this number (read modulo the sequence space), and so all up to it; then what waits is numbered
    /// and put.
    pub fn confirm(&mut self, alloc: Global, number: u32) -> Result<Puts, DupError>
        ensures { IsAnswer (confirmed self.old.sn self.old.quota number self.old.entity) self.old self.new result }
    {
        if let Some(ending) = self.ended {
            return Err(ending.error());
        }
        let puts = self.confirmed(alloc, number);
        self.keep(puts)
    }

    /// A leg comes up or goes down. Where it comes up and is in the mode, all that nothing confirmed is put on it.
    pub fn leg(&mut self, alloc: Global, leg: Leg, up: bool) -> Result<Puts, DupError>
        ensures { IsAnswer (leg_is leg up self.old.entity) self.old self.new result }
    {
        if let Some(ending) = self.ended {
            return Err(ending.error());
        }
        let puts = self.leg_is(alloc, leg, up);
        self.keep(puts)
    }

    /// Packets go on these legs from here on. On a leg that comes to carry packets all that nothing confirmed is put.
    pub fn mode(&mut self, alloc: Global, mode: Mode) -> Result<Puts, DupError>
        ensures { IsAnswer (mode_is mode self.old.entity) self.old self.new result }
    {
        if let Some(ending) = self.ended {
            return Err(ending.error());
        }
        let puts = self.mode_is(alloc, mode);
        self.keep(puts)
    }

    /// The COUNT that is given next.
    pub fn next(&self) -> u32
        ensures { result ≡ self.now.entity.sender.next }
    {
        self.packets.next()
    }

    /// Whether nothing is unconfirmed or waits.
    pub fn rests(&self) -> bool
        ensures { result ≡ rests self.now.entity }
    {
        self.packets.rests()
    }

    /// How many packets wait.
    pub fn waiting(&self) -> u32
        ensures { result ≡ length self.now.entity.waiting }
    {
        // Its clause says that so many fit.
        let _ = self.packets.used();
        self.packets.waiting().len() as u32
    }

    /// Whether a leg is up.
    pub fn is_up(&self, leg: Leg) -> bool
        ensures { result ≡ is_up self.now.entity leg }
    {
        match leg {
            Leg::First => self.first_up,
            Leg::Second => self.second_up,
        }
    }

    /// The legs on which packets go.
    pub fn mode_now(&self) -> Mode
        ensures { result ≡ self.now.entity.mode }
    {
        self.mode
    }

    /// The COUNT with this number among the last space of COUNTs below the next one. None where it would be below 0.
    pub fn count_below(&self, number: u32) -> Option<u32>
        ensures { result ≡ count_below_of self.now.sn self.now.entity.sender.next number }
    {
        count_below(self.sn, self.packets.next(), number)
    }

    /// Remembers why there are no puts.
    fn keep(&mut self, answer: Result<Puts, DupEnding>) -> Result<Puts, DupError>
        ensures { IsKept answer self.old self.new result }
    {
        match answer {
            Ok(puts) => Ok(puts),
            Err(ending) => {
                self.ended = Some(ending);
                Err(ending.error())
            }
        }
    }

    /// A packet waits, and what can be numbered is numbered and put.
    fn offered(&mut self, alloc: Global, packet: &[u8]) -> Result<Puts, DupEnding>
        requires packet { IsPacket packet.now }
        requires room { is_full self.old.quota self.old.entity ≡ false }
        requires going { self.old.ended ≡ None }
        ensures { IsGiven (offered self.old.sn self.old.quota packet.now self.old.entity) self.old self.new result }
    {
        let packet = Octets::from_slice(alloc, packet)?;
        let Ok(()) = self.packets.offer(packet) else {
            // Nothing is known of what it holds.
            self.ended = Some(DupEnding::Memory);
            return Err(DupEnding::Memory);
        };
        self.number_waiting(alloc)
    }

    /// All up to the COUNT of a number are confirmed, if there is one.
    fn confirmed(&mut self, alloc: Global, number: u32) -> Result<Puts, DupEnding>
        requires { self.old.ended ≡ None }
        ensures { IsGiven (confirmed self.old.sn self.old.quota number self.old.entity) self.old self.new result }
    {
        match self.count_below(number) {
            None => Ok(Puts::new(alloc)),
            Some(_) => {
                self.packets.confirm_to(number);
                self.number_waiting(alloc)
            }
        }
    }

    fn set_leg(&mut self, leg: Leg, up: bool)
        ensures { self.new ≡ with_entity self.old (with_leg leg up self.old.entity) }
    {
        match leg {
            Leg::First => self.first_up = up,
            Leg::Second => self.second_up = up,
        }
    }

    fn leg_is(&mut self, alloc: Global, leg: Leg, up: bool) -> Result<Puts, DupEnding>
        ensures { IsGiven (leg_is leg up self.old.entity) self.old self.new result }
    {
        let was_up = self.is_up(leg);
        self.set_leg(leg, up);
        let mut puts = Puts::new(alloc);
        if !up {
            return Ok(puts);
        }
        if was_up {
            return Ok(puts);
        }
        self.put_all(alloc, leg, &mut puts)?;
        Ok(puts)
    }

    fn mode_is(&mut self, alloc: Global, mode: Mode) -> Result<Puts, DupEnding>
        ensures { IsGiven (mode_is mode self.old.entity) self.old self.new result }
    {
        let old = self.mode;
        self.mode = mode;
        let mut puts = Puts::new(alloc);
        self.enter(alloc, old, Leg::First, &mut puts)?;
        self.enter(alloc, old, Leg::Second, &mut puts)?;
        Ok(puts)
    }

    /// What waits is numbered while there is room, and put.
    fn number_waiting(&mut self, alloc: Global) -> Result<Puts, DupEnding>
        requires { self.old.ended ≡ None }
        ensures { IsGiven (number_waiting self.old.sn self.old.quota self.old.entity) self.old self.new result }
    {
        let mut puts = Puts::new(alloc);
        while let Some(Counted { count, packet }) = self.number()? {
            self.put(alloc, Leg::First, count, &packet, &mut puts)?;
            self.put(alloc, Leg::Second, count, &packet, &mut puts)?;
        }
        Ok(puts)
    }

    /// The packet that waits longest gets the next COUNT, if one waits and there is room.
    fn number(&mut self) -> Result<Option<Counted>, DupEnding>
        requires { self.old.ended ≡ None }
        ensures { IsNumbered self.old self.new result }
    {
        let counted = self.packets.give_count();
        counted_of(counted)
    }

    /// On a leg that the old mode lacks, and that carries packets now, all that nothing confirmed is put.
    fn enter(&self, alloc: Global, old: Mode, leg: Leg, puts: &mut Puts) -> Result<(), Memory>
        ensures { OnOk result (PutsMore self.now.sn puts.old puts.new (enters old self.now.entity leg)) }
    {
        if is_in(old, leg) {
            return Ok(());
        }
        self.put_all(alloc, leg, puts)
    }

    /// All that nothing confirmed is put on a leg, if it carries packets.
    fn put_all(&self, alloc: Global, leg: Leg, puts: &mut Puts) -> Result<(), Memory>
        ensures { OnOk result (PutsMore self.now.sn puts.old puts.new
            (puts_on self.now.entity leg self.now.entity.sender.unconfirmed)) }
    {
        if !self.serves(leg) {
            return Ok(());
        }
        self.put_each(alloc, leg, puts)
    }

    fn put_each(&self, alloc: Global, leg: Leg, puts: &mut Puts) -> Result<(), Memory>
        ensures { OnOk result (PutsMore self.now.sn puts.old puts.new
            (all_on leg self.now.entity.sender.unconfirmed)) }
    {
        let mut from = 0;
        while let Some((count, packet)) = self.packets.unconfirmed(from) {
            put_pdu(alloc, self.sn, Place { leg, count }, packet, puts)?;
            from = count + 1;
        }
        Ok(())
    }

    /// A packet is put on a leg, if it carries packets.
    fn put(
        &self,
        alloc: Global,
        leg: Leg,
        count: u32,
        packet: &Octets,
        puts: &mut Puts,
    ) -> Result<(), Memory>
        requires { IsPacket packet.now }
        ensures { OnOk result (PutsMore self.now.sn puts.old puts.new
            (puts_on self.now.entity leg ((count, packet.now) ∷ []))) }
    {
        if !self.serves(leg) {
            return Ok(());
        }
        put_pdu(
            alloc,
            self.sn,
            Place { leg, count },
            packet.as_slice(),
            puts,
        )
    }

    /// Whether packets are put on a leg.
    fn serves(&self, leg: Leg) -> bool
        ensures { result ≡ serves self.now.entity leg }
    {
        is_in(self.mode, leg) && self.is_up(leg)
    }
}

/// What an uplink answers, as this entity does.
fn counted_of(counted: Result<Option<Counted>, StepError>) -> Result<Option<Counted>, DupEnding>
    ensures { result ≡ counted_of counted }
{
    match counted {
        Ok(counted) => Ok(counted),
        Err(StepError::Spent { .. }) => Err(DupEnding::Spent),
        Err(StepError::Memory) => Err(DupEnding::Memory),
    }
}

/// Where a PDU is put, and its COUNT.
#[derive(Clone, Copy)]
struct Place {
    leg: Leg,
    count: u32,
}

/// The PDU of a packet is put.
fn put_pdu(
    alloc: Global,
    sn: SnBits,
    place: Place,
    packet: &[u8],
    puts: &mut Puts,
) -> Result<(), Memory>
    requires { IsPacket packet.now }
    ensures { OnOk result (PutsMore sn puts.old puts.new (put_at place packet.now ∷ [])) }
{
    let bytes = write_pdu(alloc, sn, place.count, packet)?;
    puts.push(Put {
        leg: place.leg,
        count: place.count,
        bytes,
    })?;
    Ok(())
}

/// Whether a mode has a leg.
fn is_in(mode: Mode, leg: Leg) -> bool
    ensures { result ≡ in_mode mode leg }
{
    match (mode, leg) {
        (Mode::Both, _) | (Mode::First, Leg::First) | (Mode::Second, Leg::Second) => true,
        (Mode::First, Leg::Second) | (Mode::Second, Leg::First) => false,
    }
}
