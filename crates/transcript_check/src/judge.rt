//! Which rule a line breaks after the lines before it.

ghost use Rattle.std.specs.Prelude.{◌≡◌, ◌↔◌, ◌-◌, ◌+◌, List, IfOk, IsTrue, option_copied, reverse, slice_get, Some, length};
ghost use Rattle.tables.specs.Queues.{first_item};
ghost use Rattle.transcript_defs.specs.declared.line.TextLine.{TextLine as Line};
ghost use Rattle.transcript_defs.specs.Past.{accepted, standing};
ghost use Rattle.transcript_defs.specs.Rules.{a_line, KeepsForm, CanLose, IsOnWire, IsReadable, ShowsCount, AreDelivered, IsInOrder, WasReceived, WasSeen, IsSpelled};
ghost use Rattle.transcript_check.specs.inside.Queues.{queue_on};
ghost use Rattle.transcript_check.specs.inside.Index.{IsIndex};
ghost use Rattle.transcript_check.specs.inside.Judge.{FirstBroken, first_failed};

use crate::forms::{counts_events, may_follow};
use crate::index::{Index, newest};
use crate::same::{same_item, same_message};
use crate::spells::Spells;
use gnb_types::items::{Items, Memory};
use gnb_types::keys::EntityKey;
use gnb_types::names::{BearerId, Dir, UeId};
use scenario_text::line::{Item, Link, Message, OutLine};
use std::alloc::Global;
use transcript_defs::line::TextLine;
use transcript_defs::rule::Rule;

/// Which rules a line keeps.
#[derive(Clone, Copy)]
struct Tests {
    form: bool,
    wire: bool,
    packet: bool,
    count: bool,
    order: bool,
    seen: bool,
    spelling: bool,
}

impl Tests {
    fn first_failed(&self) -> Option<Rule>
        ensures { result ≡ first_failed self.now.form self.now.wire self.now.packet self.now.count self.now.order self.now.seen self.now.spelling }
    {
        if !self.form {
            return Some(Rule::Form);
        }
        if !self.wire {
            return Some(Rule::Wire);
        }
        if !self.packet {
            return Some(Rule::Packet);
        }
        if !self.count {
            return Some(Rule::Count);
        }
        if !self.order {
            return Some(Rule::Order);
        }
        if !self.seen {
            return Some(Rule::Seen);
        }
        if !self.spelling {
            return Some(Rule::Spelling);
        }
        None
    }
}

impl Index {
    /// The first rule that a line breaks after these lines.
    pub fn broken_rule<S: Spells>(
        &self,
        alloc: Global,
        spells: &S,
        lines: &Items<TextLine>,
        line: &TextLine,
    ) -> Result<Option<Rule>, Memory>
        ensures { IfOk result (λ broken. IsIndex (reverse lines.now) (accepted line.now (reverse lines.now)) self.now
            → FirstBroken (S.spelling spells.now) (reverse lines.now) line.now broken) }
    {
        let form = keeps_form(lines, line);
        let wire = self.keeps_wire(line);
        let packet = self.keeps_packet(line);
        let count = self.keeps_count(line);
        let order = self.keeps_order(line);
        let seen = self.keeps_seen(alloc, line)?;
        let spelling = keeps_spelling(alloc, spells, line)?;
        let tests = Tests {
            form,
            wire,
            packet,
            count,
            order,
            seen,
            spelling,
        };
        Ok(tests.first_failed())
    }

    fn keeps_wire(&self, line: &TextLine) -> bool
        ensures { (past : List Line) → IsIndex past (accepted line.now past) self.now → IsTrue result ↔ IsOnWire past line.now }
    {
        let TextLine::Printed { line } = line else {
            return true;
        };
        match line {
            OutLine::Got { link, item } => self.is_oldest(*link, item),
            OutLine::PutMessage { message } => self.is_next(message.number),
            OutLine::GotMessage { message } => self.was_put(message),
            OutLine::Lost { link, items } => self.can_lose(*link, *items),
            _ => true,
        }
    }

    fn is_oldest(&self, link: Link, item: &Item) -> bool
        ensures { IsTrue result ↔ (slice_get (queue_on self.now.queues.queues link) 0 ≡ Some item.now) }
    {
        match self.queues.head(link) {
            Some(oldest) => same_item(oldest, item),
            None => false,
        }
    }

    fn is_next(&self, number: u32) -> bool
        ensures { IsTrue result ↔ (number ≡ length self.now.messages + 1) }
    {
        match (number as usize).checked_sub(1) {
            Some(before) => before == self.messages.len(),
            None => false,
        }
    }

    fn was_put(&self, message: &Message) -> bool
        ensures { IsTrue result ↔ (slice_get self.now.messages (message.now.number - 1) ≡ Some message.now) }
    {
        let place = (message.number as usize).saturating_sub(1);
        match self.messages.get(place) {
            Some(put) => same_message(put, message),
            None => false,
        }
    }

    fn can_lose(&self, link: Link, items: u64) -> bool
        ensures { (past : List Line) → queue_on self.now.queues.queues link ≡ standing link past → IsTrue result ↔ CanLose past link items }
    {
        match link {
            Link::Tunnel { .. } => items <= self.queues.len(link) as u64,
            Link::Radio { .. } => true,
        }
    }

    fn keeps_packet(&self, line: &TextLine) -> bool
        ensures { (past : List Line) → IsIndex past (accepted line.now past) self.now → IsTrue result ↔ IsReadable past line.now }
    {
        let TextLine::Printed { line } = line else {
            return true;
        };
        match line {
            OutLine::Put { link, item } => self.accepted.reads(*link, item),
            _ => true,
        }
    }

    fn keeps_count(&self, line: &TextLine) -> bool
        ensures { (past : List Line) → IsIndex past (accepted line.now past) self.now → IsTrue result ↔ ShowsCount past line.now }
    {
        let TextLine::Printed { line } = line else {
            return true;
        };
        match line {
            OutLine::Put { link, item } => self.accepted.fits_count(*link, item),
            OutLine::Got { link, item } => self.accepted.fits_count(*link, item),
            OutLine::Deliver {
                ue,
                bearer,
                dir,
                count,
                packet,
            } => self
                .accepted
                .is_at(entity(*ue, *bearer, *dir), *count, packet.as_slice()),
            _ => true,
        }
    }

    fn keeps_order(&self, line: &TextLine) -> bool
        ensures { (past : List Line) → IsIndex past (accepted line.now past) self.now → IsTrue result ↔ IsInOrder past line.now }
    {
        let TextLine::Printed { line } = line else {
            return true;
        };
        match line {
            OutLine::Deliver {
                ue,
                bearer,
                dir,
                count,
                ..
            } => u64::from(*count) == self.receipts.delivered(entity(*ue, *bearer, *dir)),
            OutLine::Quiet {
                ue,
                bearer,
                downlink,
                uplink,
            } => self.all_delivered(entity(*ue, *bearer, Dir::Dl), *downlink)
                && self.all_delivered(entity(*ue, *bearer, Dir::Ul), *uplink),
            _ => true,
        }
    }

    fn all_delivered(&self, key: EntityKey, number: u64) -> bool
        ensures { (past : List Line) (line : Line) → IsIndex past (accepted line past) self.now
            → IsTrue result ↔ AreDelivered (accepted line past) past key number }
    {
        number == self.accepted.len(key) as u64 && number == self.receipts.delivered(key)
    }

    fn keeps_seen(&self, alloc: Global, line: &TextLine) -> Result<bool, Memory>
        ensures { IfOk result (λ keeps. (past : List Line) → IsIndex past (accepted line.now past) self.now
            → IsTrue keeps ↔ WasSeen past line.now) }
    {
        let TextLine::Printed { line } = line else {
            return Ok(true);
        };
        match line {
            OutLine::Put { link, item } => self.accepted.carries_offered(alloc, *link, item),
            OutLine::Deliver {
                ue,
                bearer,
                dir,
                count,
                packet,
            } => Ok(self.was_received(entity(*ue, *bearer, *dir), *count, packet.as_slice())),
            _ => Ok(true),
        }
    }

    /// What was received with a COUNT was the packet of that COUNT.
    fn was_received(&self, key: EntityKey, count: u32, packet: &[u8]) -> bool
        ensures { (past : List Line) (line : Line) → IsIndex past (accepted line past) self.now
            → IsTrue result ↔ WasReceived key count packet.now past }
    {
        self.receipts.was_received(key, count) && self.accepted.is_at(key, count, packet)
    }
}

fn entity(ue: UeId, bearer: BearerId, dir: Dir) -> EntityKey
    ensures { result ≡ record { ue = ue; bearer = bearer; dir = dir } }
{
    EntityKey { ue, bearer, dir }
}

fn keeps_form(lines: &Items<TextLine>, line: &TextLine) -> bool
    ensures { IsTrue result ↔ KeepsForm (reverse lines.now) (a_line line.now) }
{
    may_follow(newest(lines), line) && counts_events(lines, line)
}

fn keeps_spelling<S: Spells>(alloc: Global, spells: &S, line: &TextLine) -> Result<bool, Memory>
    ensures { IfOk result (λ keeps. IsTrue keeps ↔ IsSpelled (S.spelling spells.now) line.now) }
{
    let TextLine::Printed { line } = line else {
        return Ok(true);
    };
    match line {
        OutLine::PutMessage { message } => spells.is_spelling(
            alloc,
            message.from,
            message.to,
            message.bytes.as_slice(),
        ),
        _ => Ok(true),
    }
}
