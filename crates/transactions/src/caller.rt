//! The side that makes requests.

ghost use Rattle.std.specs.Prelude.{◌≡◌, ◌≤◌, ◌++◌, List, None, length, map, IfOk, OnOk, OnErr};
ghost use Rattle.std.specs.Map.{keys_of};
ghost use Rattle.gnb_types.specs.Orders.{channel_cmp};
ghost use Rattle.tables.specs.Tables.{find, at, IsSorted};
ghost use Rattle.transaction_defs.specs.Callers.{no_requests, begin, begun, begun_with, keep_request, is_awaited, is_open, close, is_last, one_less, due_of, due, after_tick, rests};
ghost use Rattle.transactions.specs.Answers.{BeginGives, reply_as, due_as};
ghost use Rattle.transactions.specs.declared.caller.BeginError.TheVariants.{Memory};
ghost use Rattle.transactions.specs.inside.Ticks.{aged_at};

use gnb_types::items::{Items, Memory};
use gnb_types::keys::Channel;
use gnb_types::octets::Octets;
use std::alloc::Global;
use std::marker::Model;
use tables::table::Table;
use thiserror::Error;

/// Why a request was not begun.
#[derive(Clone, Copy, Debug, PartialEq, Eq, Error)]
pub enum BeginError {
    #[error("a request to this peer is open for this terminal")]
    Running,
    #[error("the last instance was given")]
    Spent,
    #[error("out of memory")]
    Memory,
}

impl From<Memory> for BeginError {
    ghost from_gives = { λ _ e. e ≡ Memory };

    fn from(_error: Memory) -> BeginError {
        BeginError::Memory
    }
}

/// What a reply is to the side that asked.
#[derive(Clone, Copy, PartialEq, Eq)]
pub enum Reply {
    /// It answers the open request.
    Taken,
    /// It answers none, or an earlier one.
    Stale,
}

/// What is due of an open request at a tick.
#[derive(Drop)]
pub enum Due {
    /// It is put again.
    Repeat { channel: Channel, bytes: Octets },
    /// Its deadline ended, and it is closed.
    Expired { channel: Channel },
}

/// What is due at a tick, in the order of terminal and peer.
pub type DueList = Items<Due>;

/// An open request: its instance, the ticks that are left to it, and its octets once they are kept.
#[derive(Drop)]
struct Opened {
    instance: u32,
    deadline: Option<u16>,
    request: Option<Octets>,
}

impl Model for Opened {
    ghost use Rattle.std.specs.Prelude.{List, ℕ};
    ghost use Rattle.transaction_defs.specs.Callers.{Opened};

    ghost Value = { Opened (List ℕ) };

    ghost view = { λ o. record { instance = o.instance; deadline = o.deadline; request = o.request } };
}

impl Opened {
    /// Whether this tick is the last one of its deadline.
    fn is_last(&self) -> bool
        ensures { result ≡ is_last self.now.deadline }
    {
        match self.deadline {
            Some(ticks) => ticks <= 1,
            None => false,
        }
    }

    /// One tick less is left.
    fn age(&mut self)
        ensures { self.new ≡ record self.old { deadline = one_less self.old.deadline } }
    {
        self.deadline = match self.deadline {
            Some(ticks) => Some(ticks.saturating_sub(1)),
            None => None,
        };
    }
}

/// What an initiator keeps for each peer and terminal: the last instance that it gave, and the request that is open. Contracts see
/// the record of `transaction_defs`.
#[derive(Drop)]
pub struct Caller {
    last: Table<Channel, u32>,
    opened: Table<Channel, Opened>,
}

impl Model for Caller {
    ghost use Rattle.std.specs.Prelude.{List, ℕ};
    ghost use Rattle.transaction_defs.specs.Callers.{Caller};

    ghost Value = { Caller (List ℕ) };

    ghost view = { λ c. record { last = c.last; opened = c.opened } };
}

impl Caller {
    /// No request was made yet.
    pub fn new(alloc: Global) -> Caller
        ensures { result ≡ no_requests }
    {
        Caller {
            last: Table::new(alloc),
            opened: Table::new(alloc),
        }
    }

    /// Opens a request to the peer, for the terminal of this channel, and gives its instance: the one after the last. It expires
    /// at the `deadline`th of the coming ticks (at the first one also where that is 0). Room for its octets is made. It is refused
    /// where a request is open on the channel, and where the last instance was 2^32 - 1; then, and out of memory, nothing changes.
    #[tactic(auto, unfolding(transaction_defs::specs::Callers::begin, transaction_defs::specs::Callers::opened_at))]
    pub fn begin(&mut self, channel: Channel, deadline: Option<u16>) -> Result<u32, BeginError>
        ensures gives { BeginGives (begin self.old channel deadline) self.new result }
        ensures err { OnErr result (self.new ≡ self.old) }
    {
        if self.opened.has(&channel) {
            return Err(BeginError::Running);
        }
        let Some(instance) = self.last_of(&channel).checked_add(1) else {
            return Err(BeginError::Spent);
        };
        self.open(channel, deadline, instance)?;
        Ok(instance)
    }

    /// The last instance that was given on this channel; 0 before the first one.
    #[tactic(auto, unfolding(tables::specs::Tables::at))]
    fn last_of(&self, channel: &Channel) -> u32
        ensures { result ≡ at channel_cmp 0 self.now.last channel.now }
    {
        match self.last.get(channel) {
            Some(last) => *last,
            None => 0,
        }
    }

    fn open(&mut self, channel: Channel, deadline: Option<u16>, instance: u32) -> Result<(), Memory>
        requires { find channel_cmp self.old.opened channel ≡ None }
        ensures ok { OnOk result
            (begun_with self.old channel deadline instance ≡ begun instance self.new) }
        ensures err { OnErr result (self.new ≡ self.old) }
    {
        self.opened.put(
            channel,
            Opened {
                instance,
                deadline,
                request: None,
            },
        )?;
        if let Err(error) = self.last.put(channel, instance) {
            self.opened.take(&channel);
            return Err(error);
        }
        Ok(())
    }

    /// Keeps the octets of the open request of this channel, to be put again at each tick. Nothing changes where none is open.
    #[tactic(auto, unfolding(transaction_defs::specs::Callers::keep_request, transaction_defs::specs::Callers::opened_at))]
    pub fn keep_request(&mut self, channel: &Channel, bytes: Octets)
        ensures { self.new ≡ keep_request self.old channel.now bytes }
    {
        let Some(opened) = self.opened.get_mut(channel) else {
            return;
        };
        opened.request = Some(bytes);
    }

    /// Whether a reply with this instance answers the open request of this channel. The request stays open: whoever acts on the
    /// reply closes it.
    #[tactic(auto, unfolding(transaction_defs::specs::Callers::is_awaited, transaction_defs::specs::Callers::opened_at))]
    pub fn reply(&self, channel: &Channel, instance: u32) -> Reply
        ensures { result ≡ reply_as (is_awaited self.now channel.now instance) }
    {
        match self.opened.get(channel) {
            Some(opened) if opened.instance == instance => Reply::Taken,
            _ => Reply::Stale,
        }
    }

    /// Closes the open request of this channel. Nothing changes where none is open.
    #[tactic(auto, unfolding(transaction_defs::specs::Callers::close))]
    pub fn close(&mut self, channel: &Channel)
        ensures { self.new ≡ close self.old channel.now }
    {
        self.opened.take(channel);
    }

    #[tactic(auto, unfolding(transaction_defs::specs::Callers::is_open, transaction_defs::specs::Callers::opened_at))]
    pub fn is_open(&self, channel: &Channel) -> bool
        ensures { result ≡ is_open self.now channel.now }
    {
        self.opened.has(channel)
    }

    /// Whether no request is open for this terminal.
    #[tactic(auto, unfolding(transaction_defs::specs::Callers::rests))]
    pub fn rests(&self, ue: u8) -> bool
        ensures { result ≡ rests self.now ue }
    {
        for (channel, _) in self.opened.iter() {
            if channel.ue == ue {
                return false;
            }
        }
        true
    }

    /// A tick: each open request is put again, where its octets are kept, or expires, which closes it. Out of memory nothing
    /// changes.
    pub fn tick(&mut self, alloc: Global) -> Result<DueList, Memory>
        ensures due { IfOk result (λ list. list ≡ map due_as (due self.old)) }
        ensures ok { OnOk result (self.new ≡ after_tick self.old) }
        ensures err { OnErr result (self.new ≡ self.old) }
        ensures no_more { length self.new.opened ≤ length self.old.opened }
    {
        let due = self.due(alloc)?;
        let channels = self.channels(alloc)?;
        for channel in channels.as_slice() {
            self.age(channel);
        }
        Ok(due)
    }

    /// What is due at this tick.
    #[tactic(auto, unfolding(transaction_defs::specs::Callers::due))]
    fn due(&self, alloc: Global) -> Result<DueList, Memory>
        ensures { IfOk result (λ list. list ≡ map due_as (due self.now)) }
    {
        let mut due = Items::new(alloc);
        for (channel, opened) in self.opened.iter() {
            add_due(*channel, opened, &mut due)?;
        }
        Ok(due)
    }

    /// The channels with an open request.
    fn channels(&self, alloc: Global) -> Result<Items<Channel>, Memory>
        ensures ok { IfOk result (λ list. list ≡ keys_of self.now.opened) }
        ensures ordered { IsSorted channel_cmp self.now.opened }
    {
        let mut channels = Items::new(alloc);
        for (channel, _) in self.opened.iter() {
            channels.push(*channel)?;
        }
        Ok(channels)
    }

    /// The tick of one open request.
    #[tactic(auto, unfolding(crate::specs::inside::Ticks::aged_at))]
    fn age(&mut self, channel: &Channel)
        ensures { self.new
            ≡ record self.old { opened = aged_at channel_cmp self.old.opened channel.now } }
    {
        let Some(opened) = self.opened.get_mut(channel) else {
            return;
        };
        if opened.is_last() {
            self.opened.take(channel);
            return;
        }
        opened.age();
    }
}

fn add_due(channel: Channel, opened: &Opened, due: &mut DueList) -> Result<(), Memory>
    ensures ok { OnOk result (due.new ≡ due.old ++ map due_as (due_of (channel, opened.now))) }
{
    if opened.is_last() {
        return due.push(Due::Expired { channel });
    }
    let Some(bytes) = &opened.request else {
        return Ok(());
    };
    let bytes = bytes.clone()?;
    due.push(Due::Repeat { channel, bytes })
}
