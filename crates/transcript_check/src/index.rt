//! What looking back over the lines of a transcript gives, kept so that no line is looked at again.

ghost use Rattle.std.specs.Prelude.{◌≡◌, List, [], ◌∷◌, ◌++◌, reverse, IfOk, OnOk, MatchOption, ℕ, IsTrue, ◌↔◌, option_copied};
ghost use Rattle.scenario_text.specs.declared.event.Event.{Event as Happened};
ghost use Rattle.scenario_text.specs.declared.line.OutLine.TheVariants as lines;
ghost use Rattle.tables.specs.Queues.{first_item};
ghost use Rattle.transcript_defs.specs.declared.line.TextLine.{TextLine as Line};
ghost use Rattle.transcript_defs.specs.declared.line.TextLine.TheVariants.{Printed};
ghost use Rattle.transcript_defs.specs.Packets.{IsAtReceiver};
ghost use Rattle.transcript_defs.specs.Past.{accepted, is_refusal as refuses};
ghost use Rattle.transcript_defs.specs.Rules.{Brings, ShowsCount, IsInOrder};
ghost use Rattle.transcript_check.specs.inside.Accepted.{AreAccepted};
ghost use Rattle.transcript_check.specs.inside.Receipts.{AreReceived};
ghost use Rattle.transcript_check.specs.inside.Index.{IsIndex, newly_accepted};

use crate::index::accepted::Accepted;
use crate::index::queues::Queues;
use crate::index::receipts::Receipts;
use gnb_types::items::{Items, Memory};
use gnb_types::keys::EntityKey;
use gnb_types::names::{Dir, NodeId};
use scenario_text::line::{Item, Link, Message, OutLine};
use std::alloc::Global;
use transcript_defs::line::TextLine;

pub mod accepted;
pub mod items;
pub mod offers;
pub mod queues;
pub mod receipts;

/// What is asked of the lines so far.
#[derive(Drop)]
pub struct Index {
    pub queues: Queues,
    pub messages: Items<Message>,
    pub accepted: Accepted,
    pub receipts: Receipts,
}

impl Index {
    /// There is no line yet.
    pub fn new(alloc: Global) -> Index
        ensures { IsIndex [] [] result }
    {
        Index {
            queues: Queues::new(alloc),
            messages: Items::new(alloc),
            accepted: Accepted::new(alloc),
            receipts: Receipts::new(alloc),
        }
    }

    /// Takes one more line in, which keeps the rules on COUNTs and their order.
    pub fn follow(&mut self, alloc: Global, line: &TextLine) -> Result<(), Memory>
        ensures { OnOk result ((past : List Line) → ShowsCount past line.now → IsInOrder past line.now
            → IsIndex past (accepted line.now past) self.old → IsIndex (line.now ∷ past) (accepted line.now past) self.new) }
    {
        self.queues.follow(alloc, line)?;
        let TextLine::Printed { line } = line else {
            return Ok(());
        };
        match line {
            OutLine::PutMessage { message } => {
                let message = copy_message(message)?;
                self.messages.push(message)?;
                Ok(())
            }
            OutLine::Got { link, item } => {
                self.receive(*link, item)?;
                Ok(())
            }
            OutLine::Deliver {
                ue,
                bearer,
                dir,
                count,
                ..
            } => {
                let key = EntityKey {
                    ue: *ue,
                    bearer: *bearer,
                    dir: *dir,
                };
                self.receipts.deliver(key, *count)?;
                Ok(())
            }
            _ => Ok(()),
        }
    }

    fn receive(&mut self, link: Link, item: &Item) -> Result<(), Memory>
        ensures received { OnOk result ((past : List Line) → AreAccepted (accepted (Printed (lines.Got link item.now)) past) self.old.accepted
            → AreReceived past self.old.receipts.received → AreReceived (Printed (lines.Got link item.now) ∷ past) self.new.receipts.received) }
        ensures delivered { OnOk result (self.new.receipts.delivered ≡ self.old.receipts.delivered) }
        ensures queues { OnOk result (self.new.queues ≡ self.old.queues) }
        ensures messages { OnOk result (self.new.messages ≡ self.old.messages) }
        ensures accepted { OnOk result (self.new.accepted ≡ self.old.accepted) }
    {
        match brought(&self.accepted, link, item) {
            Some(count) => {
                self.receipts.receive(
                    EntityKey {
                        ue: item.ue,
                        bearer: item.bearer,
                        dir: item.dir,
                    },
                    count,
                )?;
                Ok(())
            }
            None => Ok(()),
        }
    }
}

fn copy_message(message: &Message) -> Result<Message, Memory>
    ensures { IfOk result (λ copy. copy ≡ message.now) }
{
    let bytes = message.bytes.clone()?;
    Ok(Message {
        number: message.number,
        from: message.from,
        to: message.to,
        ue: message.ue,
        bytes,
    })
}

/// The COUNT with which an item brings a packet to the receiver of its direction.
fn brought(accepted: &Accepted, link: Link, item: &Item) -> Option<u32>
    ensures { (happened : List Happened) → AreAccepted happened accepted.now
        → MatchOption result ((count : ℕ) (packet : List ℕ) → Brings happened link item.now count packet → ⊥)
        (λ count. (packet : List ℕ) × Brings happened link item.now count packet) }
{
    if !is_receiver(link, item.dir) {
        return None;
    }
    let Some(count) = item.count else {
        return None;
    };
    let Some(reading) = accepted.read(link, item) else {
        return None;
    };
    match reading.says.packet() {
        Some(_) => Some(count),
        None => None,
    }
}

fn is_receiver(link: Link, dir: Dir) -> bool
    ensures { IsTrue result ↔ IsAtReceiver link dir }
{
    match link {
        Link::Radio { .. } => dir == Dir::Dl,
        Link::Tunnel {
            end: NodeId::CuUp(_, _),
            ..
        } => dir == Dir::Ul,
        Link::Tunnel { .. } => false,
    }
}

/// The newest of these lines.
pub fn newest(lines: &Items<TextLine>) -> Option<&TextLine>
    ensures { option_copied result ≡ first_item (reverse lines.now) }
{
    lines.as_slice().last()
}

/// Accepts the event of the newest line, unless the next one refuses it.
pub fn settle(
    accepted: &mut Accepted,
    alloc: Global,
    newest: Option<&TextLine>,
    next: &TextLine,
) -> Result<(), Memory>
    ensures { OnOk result ((happened : List Happened) → AreAccepted happened accepted.old
        → AreAccepted (happened ++ newly_accepted (option_copied newest.entry) next.now) accepted.new) }
{
    let Some(newest) = newest else {
        return Ok(());
    };
    let TextLine::Printed { line } = newest else {
        return Ok(());
    };
    let OutLine::Happens { event } = line else {
        return Ok(());
    };
    if is_refusal(next) {
        return Ok(());
    }
    accepted.accept(alloc, event)?;
    Ok(())
}

fn is_refusal(line: &TextLine) -> bool
    ensures { result ≡ refuses line.now }
{
    match line {
        TextLine::Printed { line } => match line {
            OutLine::Refused { .. } => true,
            _ => false,
        },
        _ => false,
    }
}
