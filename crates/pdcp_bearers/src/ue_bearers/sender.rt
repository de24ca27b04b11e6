//! The uplink of a bearer: packets wait, get a COUNT, and are held until they are confirmed (TS 38.323, 5.2.1, 5.4.2).

ghost use Rattle.std.specs.Prelude.{◌≡◌, ◌==◌, ◌+◌, ◌<◌, ◌≤◌, ◌++◌, [], ◌∷◌, List, ℕ, length, IfOk, OnOk, OnErr};
ghost use Rattle.std.specs.List.{AllByRecursion};
ghost use Rattle.std.specs.VecDeque.Iter.{deque_iter_rest, deque_iter_steps};
ghost use Rattle.std.specs.Iterator.Runs.{YieldsRefsInOrder};
ghost use Rattle.pdcp_defs.specs.Senders.{may_restore, new_sender, emptied};
ghost use Rattle.pdcp_entities.specs.Entities.{confirmed_number, confirmed_report};
ghost use Rattle.pdcp_bearers.specs.ue_bearers.Senders.{new_sender_state, used, refusal, numbering, restoring, IsCounting, IsNumbering, IsLeastFrom, IsPacket};

use crate::ue_bearers::blocks::own_pool;
use gnb_types::names::SnBits;
use gnb_types::octets::{Memory, Octets};
use packet_pool::{Key, Pool};
use pdcp::write_pdu;
use pdcp_entities::{NumberError, Tx};
use std::alloc::Global;
use std::collections::vec_deque::Iter;
use std::marker::Model;
use tables::queue::Queue;
use unit_messages::steps::StepError;

/// The counter of COUNTs.
const COUNTS: u8 = 4;

/// A packet that got a COUNT.
#[derive(Drop)]
pub struct Counted {
    pub count: u32,
    pub packet: Octets,
}

/// A packet that got a COUNT, and its PDU.
#[derive(Drop)]
pub struct Numbered {
    pub count: u32,
    pub pdu: Octets,
}

/// What a bearer keeps for its uplink. Contracts see the sender with the octets of its packets, and the packets that wait.
#[derive(Drop)]
pub struct Sender {
    sn: SnBits,
    quota: u16,
    key: Key,
    pool: Pool,
    tx: Tx,
    /// How many packets are unconfirmed.
    held: u32,
    waiting: Queue<Octets>,
}

impl Model for Sender {
    ghost use Rattle.pdcp_bearers.specs.ue_bearers.Senders.{SenderState};
    ghost use Rattle.pdcp_bearers.specs.ue_bearers.inside.Views.{sender_state, IsSender};

    ghost Value = { SenderState };

    ghost view = { λ u. sender_state u.sn u.quota u.pool u.tx u.waiting };

    ghost invariant = { λ u. IsSender u.sn u.quota u.key u.held u.pool u.tx u.waiting };
}

impl Sender {
    /// No packets: the first gets COUNT 0. It holds at most `quota` packets, and takes the blocks for them.
    pub fn new(alloc: Global, key: Key, sn: SnBits, quota: u16) -> Result<Sender, Memory>
        requires least { 4 ≤ quota }
        requires most { quota ≤ 4096 }
        ensures { IfOk result (λ u. u ≡ new_sender_state sn quota) }
    {
        let pool = own_pool(alloc, key, quota)?;
        let tx = Tx::new(alloc, sn, 0, quota)?;
        Ok(Sender {
            sn,
            quota,
            key,
            pool,
            tx,
            held: 0,
            waiting: Queue::new(alloc),
        })
    }

    /// How many packets it has: those that nothing confirmed, and those that wait.
    pub fn used(&self) -> u32
        ensures { result ≡ used self.now }
    {
        self.held + self.waiting.len() as u32
    }

    /// A packet waits.
    pub fn offer(&mut self, packet: Octets) -> Result<(), Memory>
        requires packet { IsPacket packet }
        requires room { used self.old < self.old.quota }
        ensures { OnOk result (self.new
            ≡ record self.old { waiting = self.old.waiting ++ packet ∷ [] }) }
    {
        self.waiting.push(packet)
    }

    /// Gives the packet that waits longest the next COUNT, and holds it until it is confirmed. None where no packet waits, or as many
    /// as the window allows are unconfirmed.
    pub fn give_count(&mut self) -> Result<Option<Counted>, StepError>
        ensures { IsCounting (numbering self.old) self.old self.new result }
    {
        let Some(packet) = self.waiting.head() else {
            return Ok(None);
        };
        let r = match self.pool.put(self.key, packet.as_slice()) {
            Ok(r) => r,
            // With the packet that waits no more than the quota are there.
            Err(_) => unreachable!(),
        };
        let count = match self.tx.number(&mut self.pool, r) {
            Ok(count) => count,
            Err((r, error)) => {
                self.pool.take(r);
                return refused(error);
            }
        };
        self.held += 1;
        let Some(packet) = self.waiting.take() else {
            unreachable!()
        };
        Ok(Some(Counted { count, packet }))
    }

    /// The same with the packet's PDU.
    pub fn number(&mut self, alloc: Global) -> Result<Option<Numbered>, StepError>
        ensures { IsNumbering self.old.sn (numbering self.old) self.old self.new result }
    {
        let Some(Counted { count, packet }) = self.give_count()? else {
            return Ok(None);
        };
        let pdu = write_pdu(alloc, self.sn, count, packet.as_slice())?;
        Ok(Some(Numbered { count, pdu }))
    }

    /// Confirms all up to the COUNT with this number among the last space of COUNTs below the next one, if there is one.
    pub fn confirm_to(&mut self, number: u32)
        ensures { self.new
            ≡ record self.old { sender = confirmed_number self.old.sn self.old.sender number } }
    {
        // Its clause says that the pool is sound.
        let _ = self.pool.used(self.key);
        self.held -= self.tx.confirm_to(&mut self.pool, number);
    }

    /// Confirms what a status report does.
    pub fn confirm_report(&mut self, fmc: u32, bits: &[u8])
        ensures { self.new
            ≡ record self.old { sender = confirmed_report self.old.sender fmc bits.now } }
    {
        // Its clause says that the pool is sound.
        let _ = self.pool.used(self.key);
        self.held -= self.tx.confirm_report(&mut self.pool, fmc, bits);
    }

    /// The least COUNT not below `from` that nothing confirmed, and its packet.
    pub fn unconfirmed(&self, from: u32) -> Option<(u32, &[u8])>
        ensures { IsLeastFrom from self.now.sender.unconfirmed result }
    {
        let Some((count, place)) = self.tx.unconfirmed(from) else {
            return None;
        };
        Some((count, self.pool.parked_bytes(place)))
    }

    /// Holds a packet that another entity numbered, and says whether it does: its COUNT has to lie in the window below the next one, and
    /// above all that are held.
    pub fn restore(&mut self, count: u32, packet: &[u8]) -> bool
        requires packet { IsPacket packet.now }
        requires room { used self.old < self.old.quota }
        ensures answer { result ≡ may_restore self.old.sn self.old.quota self.old.sender count }
        ensures kept { self.new ≡ restoring self.old count packet.now result }
    {
        let r = match self.pool.put(self.key, packet) {
            Ok(r) => r,
            // Fewer packets than the quota are there.
            Err(_) => unreachable!(),
        };
        match self.tx.restore(&mut self.pool, count, r) {
            Ok(()) => {
                self.held += 1;
                true
            }
            Err((r, _)) => {
                self.pool.take(r);
                false
            }
        }
    }

    /// The next packet gets this COUNT. Out of memory nothing changes.
    pub fn go_on_at(&mut self, alloc: Global, next: u32) -> Result<(), Memory>
        requires { self.old.sender.unconfirmed ≡ [] }
        ensures ok { OnOk result (self.new ≡ record self.old { sender = new_sender next }) }
        ensures err { OnErr result (self.new ≡ self.old) }
    {
        self.tx = Tx::new(alloc, self.sn, next, self.quota)?;
        Ok(())
    }

    /// Gives up all packets.
    pub fn clear(&mut self, alloc: Global)
        ensures { self.new ≡ record self.old { sender = emptied self.old.sender; waiting = [] } }
    {
        // Its clause says that the pool is sound.
        let _ = self.pool.used(self.key);
        self.tx.clear(&mut self.pool);
        self.held = 0;
        self.waiting = Queue::new(alloc);
    }

    /// The packets that wait, the oldest first.
    pub fn waiting(&self) -> Iter<'_, Octets>
        ensures rest { deque_iter_rest result ≡ self.now.waiting }
        ensures runs { YieldsRefsInOrder (deque_iter_steps {X = List ℕ}) deque_iter_rest }
        ensures packets { AllByRecursion IsPacket self.now.waiting }
    {
        self.waiting.iter()
    }

    /// The COUNT that is given next.
    pub fn next(&self) -> u32
        ensures { result ≡ self.now.sender.next }
    {
        self.tx.next()
    }

    /// Whether nothing is unconfirmed or waits.
    pub fn rests(&self) -> bool
        ensures { result ≡ (used self.now == 0) }
    {
        self.used() == 0
    }
}

/// What becomes of a packet that gets no COUNT. (A terminal freezes no entity.)
fn refused(error: NumberError) -> Result<Option<Counted>, StepError>
    ensures { result ≡ refusal error }
{
    match error {
        NumberError::CountSpent => Err(StepError::Spent { counter: COUNTS }),
        NumberError::WindowFull | NumberError::Frozen => Ok(None),
    }
}
