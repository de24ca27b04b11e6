//! The sender, the link and the receiving entity of one unacknowledged bearer.

ghost use Rattle.std.specs.Prelude.{◌≡◌, ◌≤◌, ◌%◌, ℕ, true, length, List, Some, None, IfOk, IfErr, IfSome, IfNone, IsSome, ◌-◌, ◌⊎◌};
ghost use Rattle.std.specs.Ordering.{nat_cmp};
ghost use Rattle.tables.specs.Tables.{find};
ghost use Rattle.um_defs.specs.um_run_defs.Run.{UmOutcome, does_event, offered, of_message, taken, landed, lost, ticks_by, asked, refused, span};
ghost use Rattle.pdcp.specs.Numbers.{space, half};
ghost use Rattle.pdcp.specs.Pdus.{radio_data};
ghost use Rattle.um_defs.specs.Receivers.{ticked, takes};
ghost use Rattle.um_defs.specs.declared.types.error.UmError.TheVariants as errors;
ghost use Rattle.um.specs.run.Worlds.{new_world, IsEvent, IsOutcome, IsReception, left_on, given, IsApplied, stop_of};
ghost use Rattle.um.specs.run.inside.Views.{IsSameBeside};
ghost use Rattle.um_defs.specs.declared.types.stop.UmStop.TheVariants as stops;

use crate::run::lines::{put_delivered, refused};
use crate::um_pdcp::rx::UmRx;
use gnb_types::items::{Items, Memory};
use gnb_types::names::SnBits;
use gnb_types::octets::Octets;
use gnb_types::reasons::RefuseReason;
use pdcp::laws::written_is_read;
use pdcp::{PACKET_LIMIT, Pdu, read_pdu, write_pdu};
use std::alloc::Global;
use std::marker::Model;
use tables::table::Table;
use um_defs::types::error::UmError;
use um_defs::types::event::UmEvent;
use um_defs::types::line::UmLine;
use um_defs::types::out::Outs;
use um_defs::types::stop::{UmEnd, UmFault, UmLines, UmStop};

/// How many messages may be put.
const MOST_MESSAGES: u32 = 1_000_000;

/// The counter of messages.
const MESSAGES: u8 = 1;

/// The run so far. Contracts see the run of the definitions.
#[derive(Drop)]
pub struct UmWorld {
    sn: SnBits,
    puts: u32,
    flight: Table<u32, Octets>,
    rx: UmRx,
    /// Why the run has ended, if it has.
    ended: Option<UmEnd>,
    /// Memory ran out in an event.
    lacks_memory: bool,
}

impl Model for UmWorld {
    ghost use Rattle.um.specs.run.Worlds.{UmWorldState};
    ghost use Rattle.um.specs.run.inside.Views.{world_state, IsUmWorld};

    ghost Value = { UmWorldState };

    ghost view = { λ w. world_state w.sn w.puts w.flight w.rx w.ended w.lacks_memory };

    ghost invariant = { λ w. IsUmWorld w.sn w.puts w.flight w.rx };
}

impl UmWorld {
    /// Nothing was put. The receiving entity has a timer of so many ticks.
    pub fn new(alloc: Global, sn: SnBits, ticks: u16) -> Result<UmWorld, Memory>
        requires least { 1 ≤ ticks }
        requires most { ticks ≤ 1000 }
        ensures { IfOk result (λ world. world ≡ new_world sn ticks) }
    {
        let rx = UmRx::new(alloc, sn, ticks)?;
        Ok(UmWorld {
            sn,
            puts: 0,
            flight: Table::new(alloc),
            rx,
            ended: None,
            lacks_memory: false,
        })
    }

    /// A packet is numbered, and its PDU is put on the link.
    fn offer(&mut self, alloc: Global, packet: &[u8]) -> Result<UmLines, UmFault>
        requires { 1 ≤ length packet.now }
        ensures outcome { IsOutcome (offered self.old.sn packet.now self.old.run) self.new.run result }
        ensures same { IfOk result (λ lines. self.new ≡ record self.old { run = self.new.run }) }
        ensures ended { IfErr result (λ fault. IsSameBeside self.old self.new) }
    {
        if packet.len() > PACKET_LIMIT {
            return Ok(refused(alloc, RefuseReason::Size)?);
        }
        if self.puts >= MOST_MESSAGES {
            return Err(UmFault::Spent { counter: MESSAGES });
        }
        let count = self.puts;
        let number = count + 1;
        let pdu = write_pdu(alloc, self.sn, count, packet)?;
        let lines = Items::one(alloc, UmLine::Put { number, count, pdu })?;
        let packet = Octets::from_slice(alloc, packet)?;
        self.flight.put(number, packet)?;
        self.puts = number;
        Ok(lines)
    }

    /// One tick of the entity's timer.
    fn tick(&mut self, alloc: Global) -> Result<UmLines, UmFault>
        ensures outcome { IsOutcome (ticks_by self.old.run (ticked self.old.ticks self.old.run.entity)) self.new.run result }
        ensures same { IfOk result (λ lines. self.new ≡ record self.old { run = self.new.run }) }
        ensures ended { IfErr result (λ fault. IsSameBeside self.old self.new) }
    {
        let Ok(outs) = self.rx.tick(alloc) else {
            return Err(UmFault::Memory);
        };
        let mut lines = UmLines::new(alloc);
        put_delivered(&mut lines, outs)?;
        Ok(lines)
    }

    /// What the entity awaits.
    fn ask(&self, alloc: Global) -> Result<UmLines, UmFault>
        ensures { IsOutcome (asked self.now.run) self.now.run result }
    {
        let line = UmLine::Waiting {
            deliv: self.rx.deliv(),
            next: self.rx.next(),
            stored: self.rx.stored(),
        };
        Ok(Items::one(alloc, line)?)
    }

    /// Why the event of a message is refused.
    fn refusal(&self, number: u32) -> Option<RefuseReason>
        ensures some { IfSome result (λ reason. (go : List ℕ → UmOutcome)
            → of_message number self.now.run go ≡ refused reason self.now.run) }
        ensures none { IfNone result ((packet : List ℕ) × (find nat_cmp self.now.run.flight number ≡ Some packet)
            × ((go : List ℕ → UmOutcome) → of_message number self.now.run go ≡ go packet)) }
    {
        if number > self.puts {
            return Some(RefuseReason::NoSuch);
        }
        if !self.flight.has(&number) {
            return Some(RefuseReason::Empty);
        }
        None
    }

    /// A message leaves the link.
    fn lose(&mut self, alloc: Global, number: u32) -> Result<UmLines, UmFault>
        ensures outcome { IsOutcome (lost number self.old.run) self.new.run result }
        ensures same { IfOk result (λ lines. self.new ≡ record self.old { run = self.new.run }) }
        ensures ended { IfErr result (λ fault. IsSameBeside self.old self.new) }
    {
        if let Some(reason) = self.refusal(number) {
            return Ok(refused(alloc, reason)?);
        }
        let lines = Items::one(alloc, UmLine::Lost { number })?;
        self.flight.take(&number);
        Ok(lines)
    }

    /// What the entity says of a PDU, whose number is all that it is told of a COUNT.
    fn receive(&mut self, alloc: Global, pdu: &[u8]) -> Result<Outs, UmError>
        ensures heard { (count : ℕ) (packet : List ℕ) → 1 ≤ length packet → pdu.now ≡ radio_data self.old.sn count packet
            → IsReception (takes self.old.sn self.old.ticks self.old.run.entity (count % space self.old.sn) packet)
            self.old.run self.new.run result }
        ensures same { (self.new.sn ≡ self.old.sn) × (self.new.run.puts ≡ self.old.run.puts)
            × (self.new.run.flight ≡ self.old.run.flight) × (self.new.ended ≡ self.old.ended)
            × (self.new.lacks_memory ≡ self.old.lacks_memory) }
        ensures ticks { IfOk result (λ outs. self.new ≡ record self.old { run = self.new.run }) }
        ensures refused { IfErr result (λ e. (e ≡ errors.Memory) ⊎ (self.new ≡ self.old)) }
    {
        written_is_read();
        let Ok(Pdu::Packet { sn: number, packet }) = read_pdu(self.sn, pdu) else {
            return Err(UmError::NoCount);
        };
        self.rx.take(alloc, number, packet)
    }

    /// The PDU of a message on the link.
    fn pdu(&self, alloc: Global, number: u32) -> Result<Octets, Memory>
        requires number { 1 ≤ number }
        requires there { IsSome (find nat_cmp self.now.run.flight number) }
        ensures { IfOk result (λ pdu. (packet : List ℕ) × (find nat_cmp self.now.run.flight number ≡ Some packet)
            × (1 ≤ length packet) × (pdu ≡ radio_data self.now.sn (number - 1) packet)) }
    {
        match self.flight.get(&number) {
            Some(packet) => write_pdu(alloc, self.sn, number - 1, packet.as_slice()),
            None => unreachable!(),
        }
    }

    /// A message leaves the link, unless it stays.
    fn land(&mut self, number: u32, stays: bool)
        ensures { self.new ≡ record self.old { run = left_on stays number self.old.run } }
    {
        if !stays {
            self.flight.take(&number);
        }
    }

    /// A message is taken; it leaves the link, or stays there.
    fn give(&mut self, alloc: Global, number: u32, stays: bool) -> Result<UmLines, UmFault>
        requires { 1 ≤ number }
        ensures outcome { IsOutcome (given self.old.sn self.old.ticks stays number self.old.run) self.new.run result }
        ensures same { IfOk result (λ lines. self.new ≡ record self.old { run = self.new.run }) }
        ensures ended { IfErr result (λ fault. IsSameBeside self.old self.new) }
    {
        if let Some(reason) = self.refusal(number) {
            return Ok(refused(alloc, reason)?);
        }
        let count = number - 1;
        let pdu = self.pdu(alloc, number)?;
        let said = self.receive(alloc, pdu.as_slice());
        let mut lines = Items::one(alloc, UmLine::Got { number, count, pdu })?;
        match said {
            Ok(outs) => put_delivered(&mut lines, outs)?,
            Err(UmError::Late { .. }) => lines.push(UmLine::DropLate)?,
            Err(UmError::Duplicate { .. }) => lines.push(UmLine::DropDuplicate)?,
            Err(UmError::Memory) => return Err(UmFault::Memory),
            Err(_) => return Ok(Items::one(alloc, UmLine::Held { number })?),
        }
        self.land(number, stays);
        Ok(lines)
    }

    #[tactic(auto, unfolding(um_defs::specs::um_run_defs::Run::does_event))]
    fn outcome(&mut self, alloc: Global, event: &UmEvent) -> Result<UmLines, UmFault>
        requires { IsEvent event.now }
        ensures outcome { IsOutcome (does_event self.old.sn self.old.ticks event.now self.old.run) self.new.run result }
        ensures same { IfOk result (λ lines. self.new ≡ record self.old { run = self.new.run }) }
        ensures ended { IfErr result (λ fault. IsSameBeside self.old self.new) }
    {
        match event {
            UmEvent::Offer { packet } => self.offer(alloc, packet.as_slice()),
            UmEvent::Give { number } => self.give(alloc, *number, false),
            UmEvent::Again { number } => self.give(alloc, *number, true),
            UmEvent::Lose { number } => self.lose(alloc, *number),
            UmEvent::Tick => self.tick(alloc),
            UmEvent::Ask => self.ask(alloc),
        }
    }

    /// How many COUNTs are outstanding.
    #[tactic(auto, unfolding(um_defs::specs::um_run_defs::Run::span))]
    fn span(&self) -> u32
        ensures { result ≡ span self.now.run }
    {
        if self.puts == 0 {
            return 0;
        }
        let deliv = self.rx.deliv();
        let Some((number, _)) = self.flight.first() else {
            return self.puts.saturating_sub(deliv);
        };
        self.puts
            .saturating_sub(deliv.min(number.saturating_sub(1)))
    }

    /// Applies an event, and gives its lines. The run stops after the first event that leaves more than half a space of COUNTs outstanding,
    /// and where a counter would pass its last value; from then on it answers that stop again, without lines, and so it does out of memory.
    pub fn apply(&mut self, alloc: Global, event: &UmEvent) -> Result<UmLines, UmStop>
        requires { IsEvent event.now }
        ensures { IsApplied event.now self.old self.new result }
    {
        if self.lacks_memory {
            return Err(UmStop::Memory);
        }
        if let Some(end) = self.ended {
            return Err(stop(end, UmLines::new(alloc)));
        }
        let mut lines = match self.outcome(alloc, event) {
            Ok(lines) => lines,
            Err(UmFault::Spent { counter }) => return Err(self.end(
                UmEnd::Spent { counter },
                UmLines::new(alloc),
            )),
            Err(UmFault::Memory) => return Err(self.run_out()),
        };
        let span = self.span();
        let window = half_space(self.sn);
        if span <= window {
            return Ok(lines);
        }
        if lines.push(UmLine::Outstanding { span, window }).is_err() {
            return Err(self.run_out());
        }
        Err(self.end(UmEnd::Outstanding { span, window }, lines))
    }

    /// The run ends here.
    fn end(&mut self, end: UmEnd, lines: UmLines) -> UmStop
        ensures { (result ≡ stop_of end lines) × (self.new ≡ record self.old { ended = Some end }) }
    {
        self.ended = Some(end);
        stop(end, lines)
    }

    /// Memory ran out.
    fn run_out(&mut self) -> UmStop
        ensures { (result ≡ stops.Memory) × (self.new ≡ record self.old { lacks_memory = true }) }
    {
        self.lacks_memory = true;
        UmStop::Memory
    }
}

fn stop(end: UmEnd, lines: UmLines) -> UmStop
    ensures { result ≡ stop_of end lines }
{
    match end {
        UmEnd::Outstanding { span, window } => UmStop::Outstanding {
            span,
            window,
            lines,
        },
        UmEnd::Spent { counter } => UmStop::Spent { counter, lines },
    }
}

/// Half the space of numbers.
fn half_space(sn: SnBits) -> u32
    ensures { result ≡ half sn }
{
    match sn {
        SnBits::Len12 => 2_048,
        SnBits::Len18 => 131_072,
    }
}
