//! The bag of control messages: each message that was ever put is kept, under its number.

ghost use Rattle.std.specs.Prelude.{◌≡◌, ◌<◌, ◌^◌, ◌+◌, ◌-◌, IfOk, OnOk, OnErr, option_copied, slice_get, false, not, nat_lt, length};
ghost use Rattle.std.specs.List.Sorted.{IsStrictlySortedBy};
ghost use Rattle.std.specs.Ordering.{nat_cmp};
ghost use Rattle.tables.specs.Queues.{first_item};
ghost use Rattle.tables.specs.Tables.{find, put as put_at, at};
ghost use Rattle.transport_defs.specs.Links.{no_control_messages, most_control_messages, control_message, landed, is_in, in_flight_of};
ghost use Rattle.links.specs.links_bag.Answers.{Answers, AnswersSurely};
ghost use Rattle.links.specs.links_bag.Bags.{message, put, give, lose, in_flight, IsOneFewer};
ghost use Rattle.links.specs.links_bag.inside.Messages.{fewer_of};

use crate::links_bag::error::LinkError;
use gnb_types::items::Memory;
use gnb_types::names::NodeId;
use gnb_types::octets::Octets;
use std::alloc::Global;
use std::marker::Model;
use tables::table::Table;
use transport_defs::ControlMessage;

/// A control message: its ends, its terminal (0: none), and its octets.
pub type Message = ControlMessage<Octets>;

/// How many messages may be put.
pub const MOST_MESSAGES: usize = 1_000_000;

/// The control messages. Contracts see all that were ever put, under their numbers from 1 on, and the numbers of those in flight.
#[derive(Drop)]
pub struct Bag {
    control_messages: Vec<Message>,
    /// Those in flight, each with its terminal.
    flight: Table<u32, u8>,
    /// How many of each terminal are in flight.
    of_terminals: Table<u8, u32>,
}

impl Model for Bag {
    ghost use Rattle.std.specs.Prelude.{List, ℕ};
    ghost use Rattle.std.specs.Map.{keys_of};
    ghost use Rattle.transport_defs.specs.Links.{Bag};

    ghost Value = { Bag (List ℕ) };

    ghost use Rattle.links.specs.links_bag.inside.Messages.{numbered, BagIsKept};

    ghost view = { λ b. record { control_messages = numbered 1 b.control_messages.items; flight = keys_of b.flight } };

    ghost invariant = { λ b. BagIsKept b.control_messages.items b.flight b.of_terminals };
}

fn copy_message(control_message: &Message) -> Result<Message, Memory>
    ensures { IfOk result (λ copy. copy ≡ control_message.now) }
{
    let message = control_message.message.clone()?;
    Ok(ControlMessage {
        from: control_message.from,
        to: control_message.to,
        ue: control_message.ue,
        message,
    })
}

fn message_at(control_messages: &Vec<Message>, index: usize) -> Option<&Message>
    ensures { option_copied result ≡ slice_get control_messages.now.items index }
{
    control_messages.as_slice().get(index)
}

#[tactic(auto, unfolding(tables::specs::Tables::at))]
fn one_more(counts: &mut Table<u8, u32>, ue: u8) -> Result<(), Memory>
    requires { at nat_cmp 0 counts.old ue < 2 ^ 32 - 1 }
    ensures ok { OnOk result (counts.new ≡ put_at nat_cmp counts.old ue (at nat_cmp 0 counts.old ue + 1)) }
    ensures err { OnErr result (counts.new ≡ counts.old) }
{
    let count = match counts.get(&ue) {
        Some(count) => *count,
        None => 0,
    };
    counts.put(ue, count + 1)?;
    Ok(())
}

fn one_fewer(counts: &mut Table<u8, u32>, ue: u8)
    ensures { counts.new ≡ fewer_of counts.old ue (find nat_cmp counts.old ue) }
{
    let Some(count) = counts.get_mut(&ue) else {
        return;
    };
    *count = count.saturating_sub(1);
}

impl Bag {
    /// No message was put.
    pub fn new(alloc: Global) -> Result<Bag, Memory>
        ensures { IfOk result (λ bag. bag ≡ no_control_messages) }
    {
        Ok(Bag {
            control_messages: Vec::new(alloc),
            flight: Table::new(alloc),
            of_terminals: Table::new(alloc),
        })
    }

    /// Whether so many more may be put.
    pub fn has_room(&self, more: usize) -> bool
        ensures { result ≡ not (nat_lt most_control_messages (length self.now.control_messages + more)) }
    {
        more <= MOST_MESSAGES.saturating_sub(self.control_messages.len())
    }

    /// Puts a message, and gives its number.
    pub fn put(&mut self, from: NodeId, to: NodeId, ue: u8, bytes: Octets) -> Result<u32, LinkError>
        ensures { Answers (put self.old (message from to ue bytes)) self.old self.new result }
    {
        let before = self.control_messages.len();
        if before >= MOST_MESSAGES {
            return Err(LinkError::Spent);
        }
        let number = before as u32 + 1;
        // What can fail stands first, so that an error leaves all as it was.
        if self.control_messages.reserve(1).is_err() {
            return Err(LinkError::Memory);
        }
        self.flight.put(number, ue)?;
        match one_more(&mut self.of_terminals, ue) {
            Ok(()) => {}
            Err(_) => {
                self.flight.take(&number);
                return Err(LinkError::Memory);
            }
        }
        let message = ControlMessage {
            from,
            to,
            ue,
            message: bytes,
        };
        self.control_messages.push_reserved(message);
        Ok(number)
    }

    /// The message of this number, which stays where it is.
    pub fn control_message(&self, number: u32) -> Option<&Message>
        ensures { option_copied result ≡ control_message self.now number }
    {
        match number.checked_sub(1) {
            Some(index) => message_at(&self.control_messages, index as usize),
            None => None,
        }
    }

    /// It is in flight no more; the answer is whether it was.
    fn land(&mut self, number: u32) -> bool
        ensures was { result ≡ is_in number self.old.flight }
        ensures landed { self.new ≡ landed self.old number }
        ensures same { result ≡ false → self.new ≡ self.old }
        ensures fewer { IsOneFewer self.old self.new number }
    {
        let Some(ue) = self.flight.take(&number) else {
            return false;
        };
        one_fewer(&mut self.of_terminals, ue);
        true
    }

    /// Gives a message, as often as one likes. Once given it is in flight no more.
    pub fn give(&mut self, number: u32) -> Result<Message, LinkError>
        ensures answers { Answers (give self.old number) self.old self.new result }
        ensures fewer { IfOk result (λ message. IsOneFewer self.old self.new number) }
    {
        let Some(control_message) = self.control_message(number) else {
            return Err(LinkError::NoSuch);
        };
        let copy = copy_message(control_message)?;
        self.land(number);
        Ok(copy)
    }

    /// Loses a message in flight.
    pub fn lose(&mut self, number: u32) -> Result<(), LinkError>
        ensures answers { AnswersSurely (lose self.old number) self.old self.new result }
        ensures fewer { IfOk result (λ done. IsOneFewer self.old self.new number) }
    {
        if self.control_message(number).is_none() {
            return Err(LinkError::NoSuch);
        }
        if !self.land(number) {
            return Err(LinkError::Empty);
        }
        Ok(())
    }

    /// The least number in flight.
    pub fn least(&self) -> Option<u32>
        ensures first { result ≡ first_item self.now.flight }
        ensures ascending { IsStrictlySortedBy nat_cmp self.now.flight }
    {
        match self.flight.first() {
            Some((number, _)) => Some(*number),
            None => None,
        }
    }

    /// How many messages are in flight, of a terminal where one is named.
    pub fn in_flight(&self, ue: Option<u8>) -> u32
        ensures { result ≡ in_flight self.now ue }
    {
        match ue {
            None => self.flight.len() as u32,
            Some(ue) => self.in_flight_of(ue),
        }
    }

    #[tactic(auto, unfolding(tables::specs::Tables::at))]
    fn in_flight_of(&self, ue: u8) -> u32
        ensures { result ≡ in_flight_of self.now ue }
    {
        match self.of_terminals.get(&ue) {
            Some(count) => *count,
            None => 0,
        }
    }
}
