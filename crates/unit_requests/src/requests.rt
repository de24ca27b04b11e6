//! What a unit keeps of its requests and replies.

ghost use Rattle.std.specs.Prelude.{◌≡◌, ◌==◌, map, IfOk, OnOk, OnErr};
ghost use Rattle.std.specs.List.{list_any};
ghost use Rattle.transaction_defs.specs.Callers.{is_awaited, close, due, after_tick};
ghost use Rattle.transactions.specs.Answers.{due_as};
ghost use Rattle.unit_defs.specs.Transactions.{no_transactions, terminal_rests};

use crate::waiting::Waiting;
use gnb_types::items::Memory;
use gnb_types::keys::Channel;
use std::alloc::Global;
use std::marker::Model;
use tables::queue::Queue;
use tables::table::Table;
use transactions::callee::Callee;
use transactions::caller::{Caller, DueList, Reply};

/// The requests that are open, those that wait for them by peer and terminal, and the replies that are kept.
#[derive(Drop)]
pub struct Requests {
    pub(crate) caller: Caller,
    /// What waits, by peer and terminal, the oldest first.
    pub waiting: Table<Channel, Queue<Waiting>>,
    pub(crate) callee: Callee,
}

impl Model for Requests {
    ghost use Rattle.std.specs.Prelude.{List, ℕ};
    ghost use Rattle.unit_defs.specs.Transactions.{Transactions};

    ghost Value = { Transactions (List ℕ) (List ℕ) };

    ghost view = { λ r. record { caller = r.caller; waiting = r.waiting; callee = r.callee } };
}

impl Requests {
    /// Nothing was asked for yet.
    pub fn new(alloc: Global) -> Requests
        ensures { result ≡ no_transactions }
    {
        Requests {
            caller: Caller::new(alloc),
            waiting: Table::new(alloc),
            callee: Callee::new(alloc),
        }
    }

    /// Whether a reply with this instance answers the open request of this channel.
    pub fn is_awaited(&self, channel: &Channel, instance: u32) -> bool
        ensures { result ≡ is_awaited self.now.caller channel.now instance }
    {
        match self.caller.reply(channel, instance) {
            Reply::Taken => true,
            Reply::Stale => false,
        }
    }

    /// Closes the open request of this channel.
    pub fn close(&mut self, channel: &Channel)
        ensures { self.new ≡ record self.old { caller = close self.old.caller channel.now } }
    {
        self.caller.close(channel);
    }

    /// A tick: what is due of the open requests, in the order of terminal and peer. Out of memory nothing changes.
    pub fn tick(&mut self, alloc: Global) -> Result<DueList, Memory>
        ensures due { IfOk result (λ list. list ≡ map due_as (due self.old.caller)) }
        ensures ok { OnOk result
            (self.new ≡ record self.old { caller = after_tick self.old.caller }) }
        ensures err { OnErr result (self.new ≡ self.old) }
    {
        let due = self.caller.tick(alloc)?;
        Ok(due)
    }

    /// Whether no request of this terminal is open or waits.
    #[tactic(auto, unfolding(unit_defs::specs::Transactions::terminal_rests))]
    pub fn rests(&self, ue: u8) -> bool
        ensures { result ≡ terminal_rests self.now ue }
    {
        self.caller.rests(ue) && !self.is_waiting(ue)
    }

    fn is_waiting(&self, ue: u8) -> bool
        ensures { result ≡ list_any (λ e. e.0.ue == ue) self.now.waiting }
    {
        for (channel, _) in self.waiting.iter() {
            if channel.ue == ue {
                return true;
            }
        }
        false
    }
}
