//! The receiving entity of an unacknowledged bearer (TS 38.323, 5.2.2): what was received is handed up in order, and what is missing
//! is awaited until the timer t-Reordering has expired.

ghost use Rattle.std.specs.Prelude.{◌≡◌, ℕ, ◌≤◌, length, None, Some, Ok, Err, IfOk, IfErr, OnOk, OnErr, ◌⊎◌};
ghost use Rattle.pdcp.specs.Near.{last_count};
ghost use Rattle.pdcp_defs.specs.Counts.{near_count};
ghost use Rattle.um_defs.specs.declared.types.error.UmError.TheVariants as errors;
ghost use Rattle.um_defs.specs.Receivers.{refuses, takes, ticked, expired, arrived, kept, stopped, started, entries};
ghost use Rattle.um.specs.um_pdcp.Entity.{new_um_state, with_entity, runs_out, StaysOut};

use crate::um_pdcp::stored::{hand_up, hand_up_below};
use gnb_types::items::Memory;
use gnb_types::names::SnBits;
use gnb_types::octets::Octets;
use pdcp::near;
use std::alloc::Global;
use std::marker::Model;
use tables::table::Table;
use um_defs::types::error::UmError;
use um_defs::types::out::Outs;

/// How far above RX_DELIV a COUNT may be.
const ROOM: u32 = 1024;

/// A receiving entity. Contracts see the entity of the standard, with the length of its numbers and the ticks of its timer.
#[derive(Drop)]
pub struct UmRx {
    sn: SnBits,
    ticks: u16,
    deliv: u32,
    next: u32,
    reord: u32,
    left: Option<u16>,
    stored: Table<u32, Octets>,
    /// Memory ran out in a call.
    lacks_memory: bool,
}

impl Model for UmRx {
    ghost use Rattle.um.specs.um_pdcp.Entity.{UmState};
    ghost use Rattle.um.specs.um_pdcp.inside.Views.{um_state, um_receiver, IsUmRx};

    ghost Value = { UmState };

    ghost view = { λ r. um_state r.sn r.ticks (um_receiver r.deliv r.next r.reord r.left r.stored) r.lacks_memory };

    ghost invariant = { λ r. IsUmRx r.deliv r.next r.reord r.stored };
}

impl UmRx {
    /// An entity that awaits COUNT 0, with a timer of so many ticks.
    pub fn new(alloc: Global, sn: SnBits, ticks: u16) -> Result<UmRx, Memory>
        requires least { 1 ≤ ticks }
        requires most { ticks ≤ 1000 }
        ensures { IfOk result (λ rx. rx ≡ new_um_state sn ticks) }
    {
        Ok(UmRx {
            sn,
            ticks,
            deliv: 0,
            next: 0,
            reord: 0,
            left: None,
            stored: Table::new(alloc),
            lacks_memory: false,
        })
    }

    /// Takes a packet with this number (read modulo the sequence space), and hands up what can be handed up in order. Out of memory it
    /// answers that from then on.
    pub fn take(&mut self, alloc: Global, number: u32, packet: &[u8]) -> Result<Outs, UmError>
        ensures taken { IfOk result (λ outs. takes self.old.sn self.old.ticks self.old.entity number packet.now
            ≡ Ok (record { packets = entries outs; after = self.new.entity })) }
        ensures same { IfOk result (λ outs. self.new ≡ with_entity self.old self.new.entity) }
        ensures refused { IfErr result (λ e. (e ≡ errors.Memory)
            ⊎ ((takes self.old.sn self.old.ticks self.old.entity number packet.now ≡ Err e)
            × (self.new ≡ self.old))) }
        ensures numbers { self.new.sn ≡ self.old.sn }
        ensures out { StaysOut self.old self.new result }
    {
        if self.lacks_memory {
            return Err(UmError::Memory);
        }
        let answer = self.receive(alloc, number, packet);
        self.note(runs_out(&answer));
        answer
    }

    /// Takes a packet, where memory hasn't run out.
    fn receive(&mut self, alloc: Global, number: u32, packet: &[u8]) -> Result<Outs, UmError>
        ensures taken { IfOk result (λ outs. takes self.old.sn self.old.ticks self.old.entity number packet.now
            ≡ Ok (record { packets = entries outs; after = self.new.entity })) }
        ensures same { IfOk result (λ outs. self.new ≡ with_entity self.old self.new.entity) }
        ensures refused { IfErr result (λ e. (e ≡ errors.Memory)
            ⊎ ((takes self.old.sn self.old.ticks self.old.entity number packet.now ≡ Err e)
            × (self.new ≡ self.old))) }
        ensures numbers { self.new.sn ≡ self.old.sn }
    {
        let count = self.count_of(number)?;
        let packet = Octets::from_slice(alloc, packet)?;
        self.store(count, packet)?;
        let outs = self.hand_up_at(alloc, count)?;
        self.stop_timer();
        self.start_timer();
        Ok(outs)
    }

    /// One tick of the timer: where it expires, what was received below RX_REORD is handed up. Out of memory it answers that from then on.
    pub fn tick(&mut self, alloc: Global) -> Result<Outs, UmError>
        ensures ticked { IfOk result (λ outs. ticked self.old.ticks self.old.entity
            ≡ record { packets = entries outs; after = self.new.entity }) }
        ensures same { IfOk result (λ outs. self.new ≡ with_entity self.old self.new.entity) }
        ensures memory { IfErr result (λ e. e ≡ errors.Memory) }
        ensures numbers { self.new.sn ≡ self.old.sn }
        ensures out { StaysOut self.old self.new result }
    {
        if self.lacks_memory {
            return Err(UmError::Memory);
        }
        let answer = self.count_tick(alloc);
        self.note(runs_out(&answer));
        answer
    }

    /// One tick, where memory hasn't run out.
    fn count_tick(&mut self, alloc: Global) -> Result<Outs, UmError>
        ensures ticked { IfOk result (λ outs. ticked self.old.ticks self.old.entity
            ≡ record { packets = entries outs; after = self.new.entity }) }
        ensures same { IfOk result (λ outs. self.new ≡ with_entity self.old self.new.entity) }
        ensures memory { IfErr result (λ e. e ≡ errors.Memory) }
        ensures numbers { self.new.sn ≡ self.old.sn }
    {
        match self.left {
            None => Ok(Outs::new(alloc)),
            Some(left) if left > 1 => {
                self.left = Some(left - 1);
                Ok(Outs::new(alloc))
            }
            Some(_) => self.expire(alloc),
        }
    }

    /// The COUNT that is awaited, RX_DELIV.
    pub fn deliv(&self) -> u32
        ensures { result ≡ self.now.entity.receiver.deliv }
    {
        self.deliv
    }

    /// The COUNT after the greatest that was received, RX_NEXT.
    pub fn next(&self) -> u32
        ensures { result ≡ self.now.entity.next }
    {
        self.next
    }

    /// How many packets are stored.
    pub fn stored(&self) -> u32
        ensures { result ≡ length self.now.entity.receiver.stored }
    {
        self.stored.len() as u32
    }

    /// Whether memory ran out in a call.
    fn note(&mut self, lacks_memory: bool)
        ensures { self.new ≡ record self.old { lacks_memory = lacks_memory } }
    {
        self.lacks_memory = lacks_memory;
    }

    /// The COUNT of a number, if a packet of it is taken.
    fn count_of(&self, number: u32) -> Result<u32, UmError>
        ensures ok { IfOk result (λ count. (near_count self.now.sn self.now.entity.receiver.deliv number ≡ Some count)
            × (refuses self.now.entity (Some count) ≡ None)) }
        ensures given { IfOk result (λ count. count ≤ last_count) }
        ensures err { IfErr result (λ e.
            refuses self.now.entity (near_count self.now.sn self.now.entity.receiver.deliv number) ≡ Some e) }
    {
        let Some(count) = near(self.sn, self.deliv, number) else {
            return Err(UmError::NoCount);
        };
        if count < self.deliv {
            return Err(UmError::Late { count });
        }
        if self.stored.has(&count) {
            return Err(UmError::Duplicate { count });
        }
        if count - self.deliv >= ROOM {
            return Err(UmError::Ahead { count });
        }
        Ok(count)
    }

    /// Stores a packet whose COUNT has room.
    fn store(&mut self, count: u32, packet: Octets) -> Result<(), Memory>
        requires given { count ≤ last_count }
        ensures ok { OnOk result (self.new ≡ with_entity self.old (kept self.old.entity count packet)) }
        ensures err { OnErr result (self.new ≡ self.old) }
    {
        self.stored.put(count, packet)?;
        self.next = self.next.max(count + 1);
        Ok(())
    }

    /// Hands up what stands at RX_DELIV, where the COUNT that was received is this one.
    fn hand_up_at(&mut self, alloc: Global, count: u32) -> Result<Outs, Memory>
        ensures up { IfOk result (λ outs. arrived count self.old.entity
            ≡ record { packets = entries outs; after = self.new.entity }) }
        ensures same { IfOk result (λ outs. self.new ≡ with_entity self.old self.new.entity) }
        ensures numbers { self.new.sn ≡ self.old.sn }
    {
        let mut outs = Outs::new(alloc);
        if count != self.deliv {
            return Ok(outs);
        }
        self.deliv = hand_up(&mut self.stored, self.deliv, &mut outs)?;
        Ok(outs)
    }

    /// The timer stops where nothing is awaited below RX_REORD any more.
    fn stop_timer(&mut self)
        ensures { self.new ≡ with_entity self.old (stopped self.old.entity) }
    {
        if self.left.is_some() && self.deliv >= self.reord {
            self.left = None;
        }
    }

    /// The timer starts where it doesn't run and something is awaited below RX_NEXT.
    fn start_timer(&mut self)
        ensures { self.new ≡ with_entity self.old (started self.old.ticks self.old.entity) }
    {
        if self.left.is_none() && self.deliv < self.next {
            self.reord = self.next;
            self.left = Some(self.ticks);
        }
    }

    /// What was received below RX_REORD is handed up, whatever is missing, and what stands there without a gap.
    fn expire(&mut self, alloc: Global) -> Result<Outs, UmError>
        ensures expired { IfOk result (λ outs. expired self.old.ticks self.old.entity
            ≡ record { packets = entries outs; after = self.new.entity }) }
        ensures same { IfOk result (λ outs. self.new ≡ with_entity self.old self.new.entity) }
        ensures memory { IfErr result (λ e. e ≡ errors.Memory) }
        ensures numbers { self.new.sn ≡ self.old.sn }
    {
        let mut outs = Outs::new(alloc);
        hand_up_below(&mut self.stored, self.reord, &mut outs)?;
        self.deliv = hand_up(&mut self.stored, self.reord, &mut outs)?;
        self.left = None;
        self.start_timer();
        Ok(outs)
    }
}

/// Whether memory ran out.
fn runs_out(answer: &Result<Outs, UmError>) -> bool
    ensures { result ≡ runs_out answer.now }
{
    matches!(answer, Err(UmError::Memory))
}
