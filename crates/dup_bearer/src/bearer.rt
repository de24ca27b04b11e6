//! The bearer, and what each event does.

ghost use Rattle.std.specs.Prelude.{◌≡◌, ◌≤◌, ◌%◌, [], ◌∷◌, ◌&&◌, length, map, None, OnOk, IfOk};
ghost use Rattle.std.specs.List.{AllByRecursion};
ghost use Rattle.pdcp.specs.Numbers.{space};
ghost use Rattle.pdcp.specs.Near.{last_count};
ghost use Rattle.pdcp_defs.specs.Counts.{near_count};
ghost use Rattle.pdcp_defs.specs.Receivers.{is_duplicate, stored, deliver};
ghost use Rattle.dup_defs.specs.Senders.{is_up};
ghost use Rattle.dup_defs.specs.dup_run_defs.Run.{put_line, with_puts, lost_lines, lose_all, lose_to, offers, carry, received, handed_up, confirm, fails, mends, changes_mode, same_mode, other, asked, span, items_of, size_of, holds_nothing, where_up, goes_on, puts_out};
ghost use Rattle.dup_bearer.specs.dup_pdcp.Entity.{IsPut, puts_of_code, packet_in, IsAnswer};
ghost use Rattle.dup_bearer.specs.legs.Legs.{IsPacket};
ghost use Rattle.dup_bearer.specs.Bearers.{new_bearer, with_run, IsOutcome};
ghost use Rattle.dup_bearer.specs.inside.Parts.{IsPart, IsAnswered};

use crate::dup_pdcp::tx::DupTx;
use crate::fault::DupFault;
use crate::legs::Legs;
use crate::lines::{put_delivered, put_lost, refused};
use dup_defs::types::error::DupError;
use dup_defs::types::leg::{Leg, Mode};
use dup_defs::types::line::{DupLine, DupRefusal};
use dup_defs::types::put::{Put, Puts};
use dup_defs::types::stop::DupLines;
use gnb_types::items::{Items, Memory};
use gnb_types::names::SnBits;
use gnb_types::octets::Octets;
use pdcp::{PACKET_LIMIT, near, write_pdu};
use std::alloc::Global;
use std::marker::Model;
use tables::table::Table;
use um::um_pdcp::stored::hand_up;
use um_defs::types::out::Outs;

/// A bearer. Contracts see the run of the definitions, with the length of its numbers, its quota, and why the transmitting entity is of no
/// use any more, if it isn't.
#[derive(Drop)]
pub struct Bearer {
    sn: SnBits,
    tx: DupTx,
    legs: Legs,
    deliv: u32,
    stored: Table<u32, Octets>,
}

impl Model for Bearer {
    ghost use Rattle.dup_bearer.specs.Bearers.{BearerState};
    ghost use Rattle.dup_bearer.specs.inside.Views.{bearer_state, IsBearer};

    ghost Value = { BearerState };

    ghost view = { λ b. bearer_state b.sn b.tx b.legs b.deliv b.stored };

    ghost invariant = { λ b. IsBearer b.sn b.tx b.deliv b.stored };
}

impl Bearer {
    /// Nothing was offered; both legs are up and in the mode. At most `quota` packets are unconfirmed or wait.
    pub fn new(alloc: Global, sn: SnBits, quota: u16) -> Result<Bearer, Memory>
        requires least { 4 ≤ quota }
        requires most { quota ≤ 4096 }
        ensures { IfOk result (λ b. b ≡ new_bearer sn quota) }
    {
        let tx = DupTx::new(alloc, sn, quota)?;
        Ok(Bearer {
            sn,
            tx,
            legs: Legs::new(alloc),
            deliv: 0,
            stored: Table::new(alloc),
        })
    }

    /// A packet, which isn't empty, is offered.
    #[tactic(auto, unfolding(dup_defs::specs::dup_run_defs::Run::offers))]
    pub fn offer(&mut self, alloc: Global, packet: &[u8]) -> Result<DupLines, DupFault>
        requires packet { 1 ≤ length packet.now }
        requires going { self.old.gone ≡ None }
        ensures outcome { IsOutcome (offers self.old.sn self.old.quota packet.now self.old.run) self.new.run result }
        ensures same { IfOk result (λ lines. self.new ≡ with_run self.old self.new.run) }
    {
        if packet.len() > PACKET_LIMIT {
            return Ok(refused(alloc, DupRefusal::Size)?);
        }
        let mut lines = DupLines::new(alloc);
        match self.tx.offer(alloc, packet) {
            Ok(puts) => {
                self.put_out(alloc, puts, &mut lines)?;
                Ok(lines)
            }
            Err(DupError::Quota) => Ok(refused(alloc, DupRefusal::Quota)?),
            Err(DupError::Spent) => Err(DupFault::CountsSpent),
            Err(DupError::Memory) => Err(DupFault::Memory),
        }
    }

    /// The oldest item of a leg that isn't carried comes to the receiving entity.
    pub fn carry(&mut self, alloc: Global, leg: Leg) -> Result<DupLines, DupFault>
        requires going { self.old.gone ≡ None }
        ensures outcome { IsOutcome (carry self.old.sn leg self.old.run) self.new.run result }
        ensures same { IfOk result (λ lines. self.new ≡ with_run self.old self.new.run) }
    {
        let Some((count, packet)) = self.legs.carry(leg)? else {
            return Ok(refused(alloc, DupRefusal::Empty)?);
        };
        let pdu = write_pdu(alloc, self.sn, count, packet.as_slice())?;
        let mut lines = Items::one(alloc, DupLine::Got { leg, count, pdu })?;
        self.receive(alloc, number_of(self.sn, count), packet, &mut lines)?;
        Ok(lines)
    }

    /// The oldest carried item of a leg is confirmed: what it confirms is taken off the other leg.
    pub fn confirm(&mut self, alloc: Global, leg: Leg) -> Result<DupLines, DupFault>
        requires going { self.old.gone ≡ None }
        ensures outcome { IsOutcome (confirm self.old.sn self.old.quota leg self.old.run) self.new.run result }
        ensures same { IfOk result (λ lines. self.new ≡ with_run self.old self.new.run) }
    {
        let Some(count) = self.legs.confirm(leg) else {
            return Ok(refused(alloc, DupRefusal::Empty)?);
        };
        let number = number_of(self.sn, count);
        let mut lines = DupLines::new(alloc);
        if let Some(count) = self.tx.count_below(number) {
            self.lose_to(alloc, other_leg(leg), count, &mut lines)?;
        }
        let answer = self.tx.confirm(alloc, number);
        self.put_answer(alloc, answer, &mut lines)?;
        Ok(lines)
    }

    /// A leg goes down, and loses all that it holds.
    #[tactic(auto, unfolding(dup_defs::specs::dup_run_defs::Run::fails))]
    pub fn fail(&mut self, alloc: Global, leg: Leg) -> Result<DupLines, DupFault>
        requires going { self.old.gone ≡ None }
        ensures outcome { IsOutcome (fails self.old.sn leg self.old.run) self.new.run result }
        ensures same { IfOk result (λ lines. self.new ≡ with_run self.old self.new.run) }
    {
        if !self.tx.is_up(leg) {
            return Ok(refused(alloc, DupRefusal::Down)?);
        }
        let mut lines = DupLines::new(alloc);
        self.lose_all(alloc, leg, &mut lines)?;
        let answer = self.tx.leg(alloc, leg, false);
        self.put_answer(alloc, answer, &mut lines)?;
        Ok(lines)
    }

    /// A leg comes up.
    #[tactic(auto, unfolding(dup_defs::specs::dup_run_defs::Run::mends))]
    pub fn mend(&mut self, alloc: Global, leg: Leg) -> Result<DupLines, DupFault>
        requires going { self.old.gone ≡ None }
        ensures outcome { IsOutcome (mends self.old.sn leg self.old.run) self.new.run result }
        ensures same { IfOk result (λ lines. self.new ≡ with_run self.old self.new.run) }
    {
        if self.tx.is_up(leg) {
            return Ok(refused(alloc, DupRefusal::Up)?);
        }
        let mut lines = DupLines::new(alloc);
        let answer = self.tx.leg(alloc, leg, true);
        self.put_answer(alloc, answer, &mut lines)?;
        Ok(lines)
    }

    /// A leg that the new mode lacks loses all that it holds; then packets go on the legs of the new mode.
    #[tactic(auto, unfolding(dup_defs::specs::dup_run_defs::Run::changes_mode))]
    pub fn change_mode(&mut self, alloc: Global, mode: Mode) -> Result<DupLines, DupFault>
        requires going { self.old.gone ≡ None }
        ensures outcome { IsOutcome (changes_mode self.old.sn mode self.old.run) self.new.run result }
        ensures same { IfOk result (λ lines. self.new ≡ with_run self.old self.new.run) }
    {
        if is_same(mode, self.tx.mode_now()) {
            return Ok(refused(alloc, DupRefusal::Same)?);
        }
        let mut lines = DupLines::new(alloc);
        match mode {
            Mode::Both => {}
            Mode::First => self.lose_all(alloc, Leg::Second, &mut lines)?,
            Mode::Second => self.lose_all(alloc, Leg::First, &mut lines)?,
        }
        let answer = self.tx.mode(alloc, mode);
        self.put_answer(alloc, answer, &mut lines)?;
        Ok(lines)
    }

    /// Whether anything is under way, and how many packets were delivered.
    pub fn ask(&self, alloc: Global) -> Result<DupLines, DupFault>
        ensures { IsOutcome (asked self.now.run) self.now.run result }
    {
        let line = if self.tx.rests() && self.legs.are_empty() {
            DupLine::Quiet {
                delivered: self.deliv,
            }
        } else {
            DupLine::Busy
        };
        Ok(Items::one(alloc, line)?)
    }

    /// The length of its numbers.
    pub fn sn(&self) -> SnBits
        ensures { result ≡ self.now.sn }
    {
        self.sn
    }

    /// Whether a leg is up.
    pub fn is_up(&self, leg: Leg) -> bool
        ensures { result ≡ is_up self.now.run.entity leg }
    {
        self.tx.is_up(leg)
    }

    /// How many items of a leg are to be carried.
    pub fn coming(&self, leg: Leg) -> usize
        ensures { result ≡ length (items_of leg self.now.run).coming }
    {
        self.legs.coming(leg)
    }

    /// How many items of a leg were carried.
    pub fn carried(&self, leg: Leg) -> usize
        ensures { result ≡ length (items_of leg self.now.run).carried }
    {
        self.legs.carried(leg)
    }

    /// How many items a leg holds.
    pub fn len(&self, leg: Leg) -> u32
        ensures { result ≡ size_of (items_of leg self.now.run) }
    {
        self.legs.len(leg)
    }

    /// How many packets wait for a COUNT.
    pub fn waiting(&self) -> u32
        ensures { result ≡ length self.now.run.entity.waiting }
    {
        self.tx.waiting()
    }

    /// Whether both legs hold nothing.
    pub fn are_empty(&self) -> bool
        ensures { result ≡ (holds_nothing self.now.run.first && holds_nothing self.now.run.second) }
    {
        self.legs.are_empty()
    }

    /// How many COUNTs are outstanding: from the least that is undelivered or stands on a leg up to the last that was given.
    #[tactic(auto, unfolding(dup_defs::specs::dup_run_defs::Run::span))]
    pub fn span(&self) -> u32
        ensures { result ≡ span self.now.run }
    {
        let next = self.tx.next();
        let least = next.min(self.deliv);
        next.saturating_sub(self.legs.least(least))
    }

    /// A packet with this number is received: it came before, or it is stored, and what can be is delivered in order.
    fn receive(
        &mut self,
        alloc: Global,
        number: u32,
        packet: Octets,
        lines: &mut DupLines,
    ) -> Result<(), Memory>
        ensures { OnOk result (IsPart (received packet self.old.run
            (near_count self.old.sn self.old.run.receiver.deliv number)) self.old self.new lines.old lines.new) }
    {
        let Some(count) = near(self.sn, self.deliv, number) else {
            lines.push(DupLine::DropDuplicate)?;
            return Ok(());
        };
        if self.is_duplicate(count) {
            lines.push(DupLine::DropDuplicate)?;
            return Ok(());
        }
        self.store(alloc, count, packet, lines)
    }

    /// Whether a COUNT was delivered or is stored.
    #[tactic(auto, unfolding(pdcp_defs::specs::Receivers::is_duplicate))]
    fn is_duplicate(&self, count: u32) -> bool
        ensures { result ≡ is_duplicate self.now.run.receiver count }
    {
        count < self.deliv || self.stored.has(&count)
    }

    /// A packet is stored, and what can be is delivered in order.
    fn store(
        &mut self,
        alloc: Global,
        count: u32,
        packet: Octets,
        lines: &mut DupLines,
    ) -> Result<(), Memory>
        requires { count ≤ last_count }
        ensures { OnOk result (IsPart (handed_up self.old.run (deliver (stored self.old.run.receiver count packet)))
            self.old self.new lines.old lines.new) }
    {
        self.stored.put(count, packet)?;
        let mut outs = Outs::new(alloc);
        self.deliv = hand_up(&mut self.stored, self.deliv, &mut outs)?;
        put_delivered(lines, outs)?;
        Ok(())
    }

    /// All items leave a leg.
    fn lose_all(&mut self, alloc: Global, leg: Leg, lines: &mut DupLines) -> Result<(), Memory>
        ensures { OnOk result (IsPart (lose_all leg self.old.run) self.old self.new lines.old lines.new) }
    {
        put_lost(lines, leg, self.legs.len(leg))?;
        self.legs.lose_all(alloc, leg);
        Ok(())
    }

    /// Items up to a COUNT that weren't carried leave a leg.
    fn lose_to(
        &mut self,
        alloc: Global,
        leg: Leg,
        count: u32,
        lines: &mut DupLines,
    ) -> Result<(), Memory>
        ensures { OnOk result (IsPart (lose_to leg count self.old.run) self.old self.new lines.old lines.new) }
    {
        let lost = self.legs.lose_to(alloc, leg, count)?;
        put_lost(lines, leg, lost)
    }

    /// What the transmitting entity puts, if it does, stands on its legs.
    fn put_answer(
        &mut self,
        alloc: Global,
        answer: Result<Puts, DupError>,
        lines: &mut DupLines,
    ) -> Result<(), DupFault>
        requires puts { IfOk answer (AllByRecursion (IsPut self.old.sn)) }
        ensures { IsAnswered answer self.old self.new lines.old lines.new result }
    {
        match answer {
            Ok(puts) => Ok(self.put_out(alloc, puts, lines)?),
            Err(DupError::Memory) => Err(DupFault::Memory),
            Err(_) => Err(DupFault::CountsSpent),
        }
    }

    /// Each PDU that is put has a line, and stands on its leg.
    fn put_out(&mut self, alloc: Global, puts: Puts, lines: &mut DupLines) -> Result<(), Memory>
        requires { AllByRecursion (IsPut self.old.sn) puts }
        ensures { OnOk result (IsPart (goes_on (map (put_line self.old.sn) (puts_of_code self.old.sn puts))
            (with_puts (puts_of_code self.old.sn puts) self.old.run)) self.old self.new lines.old lines.new) }
    {
        for put in puts.into_vec() {
            self.put_one(alloc, put, lines)?;
        }
        Ok(())
    }

    fn put_one(&mut self, alloc: Global, put: Put, lines: &mut DupLines) -> Result<(), Memory>
        requires { IsPut self.old.sn put }
        ensures { OnOk result (IsPart (goes_on (map (put_line self.old.sn) (puts_of_code self.old.sn (put ∷ [])))
            (with_puts (puts_of_code self.old.sn (put ∷ [])) self.old.run)) self.old self.new lines.old lines.new) }
    {
        let Put { leg, count, bytes } = put;
        let packet = packet_in(alloc, self.sn, bytes.as_slice())?;
        self.legs.put(leg, count, packet)?;
        lines.push(DupLine::Put {
            leg,
            count,
            pdu: bytes,
        })
    }
}

/// The packet in a data PDU.
fn packet_in(alloc: Global, sn: SnBits, pdu: &[u8]) -> Result<Octets, Memory>
    ensures { IfOk result (λ packet. packet ≡ packet_in sn pdu.now) }
{
    let packet = match (sn, pdu) {
        (SnBits::Len12, [_, _, packet @ ..]) | (SnBits::Len18, [_, _, _, packet @ ..]) => packet,
        _ => &[],
    };
    Octets::from_slice(alloc, packet)
}

fn other_leg(leg: Leg) -> Leg
    ensures { result ≡ other leg }
{
    match leg {
        Leg::First => Leg::Second,
        Leg::Second => Leg::First,
    }
}

fn is_same(a: Mode, b: Mode) -> bool
    ensures { result ≡ same_mode a b }
{
    match (a, b) {
        (Mode::Both, Mode::Both) | (Mode::First, Mode::First) | (Mode::Second, Mode::Second) => {
            true
        }
        _ => false,
    }
}

/// The number of a COUNT.
fn number_of(sn: SnBits, count: u32) -> u32
    ensures { result ≡ count % space sn }
{
    match sn {
        SnBits::Len12 => count % 4_096,
        SnBits::Len18 => count % 262_144,
    }
}
