//! The text of events and of lines, by `Display`.

ghost use Rattle.std.specs.Prelude.{◌≡◌, Some, IfOk};
ghost use Rattle.std.specs.List.{join_with_byte};
ghost use Rattle.gnb_types.specs.Hex.{hex_of};
ghost use Rattle.scenario_text.specs.script_words.Places.{sn_bits_text, value_words};
ghost use Rattle.scenario_text.specs.Grammar.{plan_places, radio_places, bearer_places};
ghost use Rattle.scenario_text.specs.Texts.{plan_values, event_text};
ghost use Rattle.scenario_text.specs.Print.{link_text, count_text, item_text, message_text, line_text};

use crate::event::Event;
use crate::line::{Item, Link, Message, OutLine};
use gnb_types::names::{BearerId, Dir, SnBits, UeId};
use gnb_types::octets::{Memory, Octets};
use gnb_types::plans::Plan;
use std::alloc::Global;
use std::fmt;

/// Bytes, shown as two upper-case hexadecimal digits each.
#[derive(Clone, Copy)]
struct Hex<'a>(&'a Octets);

impl fmt::Display for Hex<'_> {
    ghost output = { λ x. Some (hex_of x.0.now) };

    fn fmt<W: fmt::Write>(&self, f: &mut fmt::Formatter<W>) -> fmt::Result {
        for byte in self.0.as_slice() {
            write!(f, "{byte:02X}")?;
        }
        Ok(())
    }
}

/// The number of bits of a sequence number.
#[derive(Clone, Copy)]
struct Bits(SnBits);

impl fmt::Display for Bits {
    ghost output = { λ x. Some (sn_bits_text x.0) };

    fn fmt<W: fmt::Write>(&self, f: &mut fmt::Formatter<W>) -> fmt::Result {
        match self.0 {
            SnBits::Len12 => write!(f, "12"),
            SnBits::Len18 => write!(f, "18"),
        }
    }
}

impl fmt::Display for Link {
    ghost output = { λ x. Some (link_text x) };

    fn fmt<W: fmt::Write>(&self, f: &mut fmt::Formatter<W>) -> fmt::Result {
        match self {
            Link::Tunnel { end, teid } => write!(f, "{end}/{teid}"),
            Link::Radio {
                ue,
                bearer,
                dir,
                epoch,
            } => write!(f, "r/{ue}/{bearer}/{dir}/{epoch}"),
        }
    }
}

/// A COUNT, or `-` where none is known.
#[derive(Clone, Copy)]
struct Count(Option<u32>);

impl fmt::Display for Count {
    ghost output = { λ x. Some (count_text x.0) };

    fn fmt<W: fmt::Write>(&self, f: &mut fmt::Formatter<W>) -> fmt::Result {
        match self.0 {
            None => write!(f, "-"),
            Some(count) => write!(f, "{count}"),
        }
    }
}

/// The words of a plan: `uU G P D N C Q`.
#[derive(Clone, Copy)]
struct PlanWords(Plan);

impl fmt::Display for PlanWords {
    ghost output = { λ x. Some (join_with_byte 32 (value_words plan_places (plan_values x.0))) };

    fn fmt<W: fmt::Write>(&self, f: &mut fmt::Formatter<W>) -> fmt::Result {
        let plan = self.0;
        let (ue, gnb, up, du, sn) = (plan.ue, plan.gnb, plan.up, plan.du, Bits(plan.sn));
        let (bearers, quota) = (plan.bearers, plan.quota);
        write!(f, "{ue} {gnb} {up} {du} {sn} {bearers} {quota}")
    }
}

/// The words of a bearer and a direction: `uU bB DIR`.
#[derive(Clone, Copy)]
struct RadioWords(UeId, BearerId, Dir);

impl fmt::Display for RadioWords {
    ghost output = { λ x. Some (join_with_byte 32 (value_words radio_places (x.0, (x.1, (x.2, tt))))) };

    fn fmt<W: fmt::Write>(&self, f: &mut fmt::Formatter<W>) -> fmt::Result {
        let (ue, bearer, dir) = (self.0, self.1, self.2);
        write!(f, "{ue} {bearer} {dir}")
    }
}

/// The words of a bearer: `uU bB`.
#[derive(Clone, Copy)]
struct BearerWords(UeId, BearerId);

impl fmt::Display for BearerWords {
    ghost output = { λ x. Some (join_with_byte 32 (value_words bearer_places (x.0, (x.1, tt)))) };

    fn fmt<W: fmt::Write>(&self, f: &mut fmt::Formatter<W>) -> fmt::Result {
        let (ue, bearer) = (self.0, self.1);
        write!(f, "{ue} {bearer}")
    }
}

#[tactic(auto, unfolding(crate::specs::Texts::event_text))]
impl fmt::Display for Event {
    ghost output = { λ x. Some (event_text x) };

    fn fmt<W: fmt::Write>(&self, f: &mut fmt::Formatter<W>) -> fmt::Result {
        match self {
            Event::Static { plan } => write!(f, "static {}", PlanWords(*plan)),
            Event::Start => write!(f, "start"),
            Event::Attach { plan } => write!(f, "attach {}", PlanWords(*plan)),
            Event::Offer {
                ue,
                bearer,
                dir,
                packet,
            } => write!(f, "offer {ue} {bearer} {dir} {}", Hex(packet)),
            Event::Get { end, teid } => write!(f, "get {end}/{teid}"),
            Event::Air { ue, bearer, dir } => write!(f, "air {}", RadioWords(*ue, *bearer, *dir)),
            Event::Ack { ue, bearer, dir } => write!(f, "ack {}", RadioWords(*ue, *bearer, *dir)),
            Event::Give { message } => write!(f, "give #{message}"),
            Event::LoseMessage { message } => write!(f, "lose #{message}"),
            Event::LoseItem { end, teid } => write!(f, "lose {end}/{teid}"),
            Event::Poll { ue, bearer } => write!(f, "poll {}", BearerWords(*ue, *bearer)),
            Event::Pump => write!(f, "pump"),
            Event::Tick => write!(f, "tick"),
            Event::Fail { ue } => write!(f, "fail {ue}"),
            Event::Arrive { ue } => write!(f, "arrive {ue}"),
            Event::Return { ue } => write!(f, "return {ue}"),
            Event::Handover { ue, gnb, up, du } => write!(f, "handover {ue} {gnb} {up} {du}"),
            Event::Cancel { ue } => write!(f, "cancel {ue}"),
            Event::Release { ue } => write!(f, "release {ue}"),
            Event::Ask { ue, bearer } => write!(f, "ask {}", BearerWords(*ue, *bearer)),
            Event::Settle => write!(f, "settle"),
            Event::InjectMessage { from, to, bytes } => {
                write!(f, "inject {from} {to} {}", Hex(bytes))
            }
            Event::InjectItem { end, teid, bytes } => {
                write!(f, "inject {end}/{teid} {}", Hex(bytes))
            }
        }
    }
}

#[tactic(auto, unfolding(crate::specs::Print::item_text))]
impl fmt::Display for Item {
    ghost output = { λ x. Some (item_text x) };

    fn fmt<W: fmt::Write>(&self, f: &mut fmt::Formatter<W>) -> fmt::Result {
        let (ue, bearer, dir, count) = (self.ue, self.bearer, self.dir, Count(self.count));
        write!(f, "{ue} {bearer} {dir} {count} {}", Hex(&self.bytes))
    }
}

#[tactic(auto, unfolding(crate::specs::Print::message_text))]
impl fmt::Display for Message {
    ghost output = { λ x. Some (message_text x) };

    fn fmt<W: fmt::Write>(&self, f: &mut fmt::Formatter<W>) -> fmt::Result {
        let (number, from, to, ue) = (self.number, self.from, self.to, self.ue);
        write!(f, "#{number} {from} {to} u{ue} {}", Hex(&self.bytes))
    }
}

#[tactic(auto, unfolding(crate::specs::Print::line_text))]
impl fmt::Display for OutLine {
    ghost output = { λ x. Some (line_text x) };

    fn fmt<W: fmt::Write>(&self, f: &mut fmt::Formatter<W>) -> fmt::Result {
        match self {
            OutLine::Happens { event } => write!(f, "> {event}"),
            OutLine::Put { link, item } => write!(f, "put {link} {item}"),
            OutLine::Got { link, item } => write!(f, "got {link} {item}"),
            OutLine::PutMessage { message } => write!(f, "put {message}"),
            OutLine::GotMessage { message } => write!(f, "got {message}"),
            OutLine::Deliver {
                ue,
                bearer,
                dir,
                count,
                packet,
            } => write!(f, "deliver {ue} {bearer} {dir} {count} {}", Hex(packet)),
            OutLine::Lost { link, items } => write!(f, "lost {link} {items}"),
            OutLine::LostMessage { message } => write!(f, "lost #{message} 1"),
            OutLine::Drop { node, reason } => write!(f, "drop {node} {reason}"),
            OutLine::Held { link, reason } => write!(f, "held {link} {reason}"),
            OutLine::Failed { node, ue, cause } => write!(f, "failed {node} {ue} {cause}"),
            OutLine::Quiet {
                ue,
                bearer,
                downlink,
                uplink,
            } => write!(f, "quiet {ue} {bearer} {downlink} {uplink}"),
            OutLine::Busy { ue, bearer } => write!(f, "busy {}", BearerWords(*ue, *bearer)),
            OutLine::Settled { rounds } => write!(f, "settled {rounds}"),
            OutLine::Unsettled { rounds } => write!(f, "unsettled {rounds}"),
            OutLine::Refused { reason } => write!(f, "refused {reason}"),
            OutLine::Outstanding {
                ue,
                bearer,
                dir,
                span,
                window,
            } => write!(f, "outstanding {ue} {bearer} {dir} {span} {window}"),
            OutLine::End { events } => write!(f, "end {events}"),
            OutLine::Stop {
                code,
                place,
                reason,
            } => write!(f, "stop {code} {place} {reason}"),
        }
    }
}

/// The text of a line, without its LF.
pub fn print_line(alloc: Global, line: &OutLine) -> Result<Octets, Memory>
    ensures { IfOk result (λ text. text ≡ line_text line.now) }
{
    let text = format!(in alloc; "{line}")?;
    Ok(Octets::from_vec(text.into_bytes()))
}
