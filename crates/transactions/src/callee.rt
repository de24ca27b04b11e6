//! The side that answers requests.

ghost use Rattle.std.specs.Prelude.{◌≡◌, List, [], None, OnErr, IfOk, OnOk, option_copied};
ghost use Rattle.transaction_defs.specs.Callees.{newest, verdict, taken, accepted, kept_reply, keep, keep_for};
ghost use Rattle.transactions.specs.Answers.{verdict_as};

use gnb_types::items::Memory;
use gnb_types::keys::Channel;
use gnb_types::octets::Octets;
use std::alloc::Global;
use std::marker::Model;
use tables::shelf::Shelf;

/// What a request is to its responder.
#[derive(Clone, Copy, PartialEq, Eq)]
pub enum Verdict {
    /// Its instance is above all earlier ones of its channel: it is acted on.
    New,
    /// It is the newest request again: its kept reply is put again.
    Again,
    /// A later request was taken before it.
    Stale,
}

/// The newest request of a channel: its instance, and its reply once one is kept.
#[derive(Drop)]
struct Kept {
    instance: u32,
    reply: Option<Octets>,
}

impl Model for Kept {
    ghost use Rattle.std.specs.Prelude.{List, ℕ};
    ghost use Rattle.transaction_defs.specs.Callees.{Kept};

    ghost Value = { Kept (List ℕ) };

    ghost view = { λ k. record { instance = k.instance; reply = k.reply } };
}

/// What a responder keeps for each initiator and terminal: the newest instance, and the octets of its reply. Numbers and replies
/// stay for the whole run. Contracts see the table of `transaction_defs`.
#[derive(Drop)]
pub struct Callee {
    kept: Shelf<Channel, Kept>,
}

impl Model for Callee {
    ghost use Rattle.std.specs.Prelude.{List, ℕ};
    ghost use Rattle.transaction_defs.specs.Callees.{Callee};

    ghost Value = { Callee (List ℕ) };

    ghost view = { λ c. c.kept };
}

impl Callee {
    /// Nothing was asked for yet.
    pub fn new(alloc: Global) -> Callee
        ensures { result ≡ [] }
    {
        Callee {
            kept: Shelf::new(alloc),
        }
    }

    /// Takes a request with this instance, of the initiator and terminal of this channel. Room for its reply is made. Only the
    /// first request of a channel takes memory.
    #[tactic(auto, unfolding(transaction_defs::specs::Callees::accepted, transaction_defs::specs::Callees::verdict, transaction_defs::specs::Callees::newest, transaction_defs::specs::Callees::kept_at, transaction_defs::specs::Callees::taken))]
    pub fn accept(&mut self, channel: Channel, instance: u32) -> Result<Verdict, Memory>
        ensures verdict { IfOk result (λ v. v ≡ verdict_as (verdict self.old channel instance)) }
        ensures kept { OnOk result (self.new ≡ accepted self.old channel instance) }
        ensures err { OnErr result (self.new ≡ self.old) }
        ensures first { OnErr result (newest self.old channel ≡ None) }
    {
        let Some(kept) = self.kept.get_mut(&channel) else {
            self.first(channel, instance)?;
            return Ok(Verdict::New);
        };
        if instance < kept.instance {
            return Ok(Verdict::Stale);
        }
        if instance == kept.instance {
            return Ok(Verdict::Again);
        }
        *kept = Kept {
            instance,
            reply: None,
        };
        Ok(Verdict::New)
    }

    #[tactic(auto, unfolding(transaction_defs::specs::Callees::taken))]
    fn first(&mut self, channel: Channel, instance: u32) -> Result<(), Memory>
        ensures ok { OnOk result (self.new ≡ taken self.old channel instance) }
        ensures err { OnErr result (self.new ≡ self.old) }
    {
        self.kept.put(
            channel,
            Kept {
                instance,
                reply: None,
            },
        )?;
        Ok(())
    }

    /// The reply that is kept for the newest instance of this channel.
    #[tactic(auto, unfolding(transaction_defs::specs::Callees::kept_reply, transaction_defs::specs::Callees::kept_at))]
    pub fn kept(&self, channel: &Channel) -> Option<&Octets>
        ensures { option_copied result ≡ kept_reply self.now channel.now }
    {
        match self.kept.get(channel) {
            Some(kept) => kept.reply.as_ref(),
            None => None,
        }
    }

    /// Keeps the reply to the newest instance of this channel, in the place of one that was kept. Nothing changes where the
    /// channel has none.
    #[tactic(auto, unfolding(transaction_defs::specs::Callees::keep, transaction_defs::specs::Callees::kept_at))]
    pub fn keep(&mut self, channel: &Channel, reply: Octets)
        ensures { self.new ≡ keep self.old channel.now reply }
    {
        let Some(kept) = self.kept.get_mut(channel) else {
            return;
        };
        kept.reply = Some(reply);
    }

    /// Keeps the reply to this instance of this channel. Nothing changes where another one is the newest.
    #[tactic(auto, unfolding(transaction_defs::specs::Callees::keep_for, transaction_defs::specs::Callees::keep, transaction_defs::specs::Callees::newest, transaction_defs::specs::Callees::kept_at))]
    pub fn keep_for(&mut self, channel: &Channel, instance: u32, reply: Octets)
        ensures { self.new ≡ keep_for self.old channel.now instance reply }
    {
        let Some(kept) = self.kept.get_mut(channel) else {
            return;
        };
        if kept.instance != instance {
            return;
        }
        kept.reply = Some(reply);
    }
}
