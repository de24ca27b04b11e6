//! Reading the lines of a script. The first wrong word from the left decides the reason.

ghost use Rattle.std.specs.Prelude.{◌≡◌, ◌==◌, ◌≤◌, IfOk, Bool};
ghost use Rattle.std.specs.List.{list_any};
ghost use Rattle.scenario_text.specs.script_words.Places.{read_places};
ghost use Rattle.scenario_text.specs.script_words.Answers.{words_left, Gives, GivesOrMemory};
ghost use Rattle.scenario_text.specs.Grammar.{keyword_text, keyword_of, plan_places, radio_places, bearer_places, ue_places, message_places, tunnel_places, inject_message_form, inject_item_form, read_form, names_message as names_a_message, names_tunnel as names_a_tunnel, keyword_event, event_of, is_skipped as skips};
ghost use Rattle.scenario_text.specs.Texts.{InRange, plan_values};
ghost use Rattle.scenario_text.specs.declared.event.Keyword.TheVariants as keywords;

use crate::event::{Event, Keyword};
pub use crate::script_words::reason::TextError;
use crate::script_words::reason::TextReason;
use crate::script_words::words::Words;
use gnb_types::names::{BearerId, Dir, NodeId, UeId};
use gnb_types::octets::Octets;
use gnb_types::plans::Plan;
use std::alloc::Global;

/// All keywords.
const KEYWORDS: [Keyword; 21] = [
    Keyword::Static,
    Keyword::Start,
    Keyword::Attach,
    Keyword::Offer,
    Keyword::Get,
    Keyword::Air,
    Keyword::Ack,
    Keyword::Give,
    Keyword::Lose,
    Keyword::Poll,
    Keyword::Pump,
    Keyword::Tick,
    Keyword::Fail,
    Keyword::Arrive,
    Keyword::Return,
    Keyword::Handover,
    Keyword::Cancel,
    Keyword::Release,
    Keyword::Ask,
    Keyword::Settle,
    Keyword::Inject,
];

impl Keyword {
    /// The keyword's word.
    fn text(self) -> &'static [u8]
        ensures { result.now ≡ keyword_text self }
    {
        match self {
            Keyword::Static => b"static",
            Keyword::Start => b"start",
            Keyword::Attach => b"attach",
            Keyword::Offer => b"offer",
            Keyword::Get => b"get",
            Keyword::Air => b"air",
            Keyword::Ack => b"ack",
            Keyword::Give => b"give",
            Keyword::Lose => b"lose",
            Keyword::Poll => b"poll",
            Keyword::Pump => b"pump",
            Keyword::Tick => b"tick",
            Keyword::Fail => b"fail",
            Keyword::Arrive => b"arrive",
            Keyword::Return => b"return",
            Keyword::Handover => b"handover",
            Keyword::Cancel => b"cancel",
            Keyword::Release => b"release",
            Keyword::Ask => b"ask",
            Keyword::Settle => b"settle",
            Keyword::Inject => b"inject",
        }
    }
}

/// The keyword that is this word.
#[tactic(auto, unfolding(crate::specs::Grammar::keyword_of))]
fn keyword(word: &[u8]) -> Option<Keyword>
    ensures { result ≡ keyword_of word.now }
{
    KEYWORDS.iter().copied().find(|k| word == k.text())
}

/// `uU G P D N C Q`
fn plan(words: Words) -> Result<Plan, TextReason>
    ensures { Gives plan_values result (read_places plan_places (words_left words.entry.rest)) }
{
    let (ue, words) = words.ue()?;
    let (gnb, words) = words.gnb()?;
    let (up, words) = words.number(1, 2)?;
    let (du, words) = words.number(1, 2)?;
    let (sn, words) = words.sn_bits()?;
    let (bearers, words) = words.number(1, 8)?;
    let (quota, words) = words.number(4, 4096)?;
    words.end()?;
    Ok(Plan {
        ue,
        gnb,
        up: up as u8,
        du: du as u8,
        sn,
        bearers: bearers as u8,
        quota: quota as u16,
    })
}

/// `uU bB DIR`
fn radio(words: Words) -> Result<(UeId, BearerId, Dir), TextReason>
    ensures { Gives (λ x. (x.0, (x.1, (x.2, tt)))) result (read_places radio_places (words_left words.entry.rest)) }
{
    let (ue, words) = words.ue()?;
    let (bearer, words) = words.bearer()?;
    let (dir, words) = words.dir()?;
    words.end()?;
    Ok((ue, bearer, dir))
}

/// `uU bB`
fn bearer(words: Words) -> Result<(UeId, BearerId), TextReason>
    ensures { Gives (λ x. (x.0, (x.1, tt))) result (read_places bearer_places (words_left words.entry.rest)) }
{
    let (ue, words) = words.ue()?;
    let (bearer, words) = words.bearer()?;
    words.end()?;
    Ok((ue, bearer))
}

/// `uU`
fn ue(words: Words) -> Result<UeId, TextReason>
    ensures { Gives (λ ue. (ue, tt)) result (read_places ue_places (words_left words.entry.rest)) }
{
    let (ue, words) = words.ue()?;
    words.end()?;
    Ok(ue)
}

/// `#M`
fn message(words: Words) -> Result<u32, TextReason>
    ensures { Gives (λ message. (message, tt)) result (read_places message_places (words_left words.entry.rest)) }
{
    let (message, words) = words.message()?;
    words.end()?;
    Ok(message)
}

/// `NODE/TEID`
fn tunnel(words: Words) -> Result<(NodeId, u32), TextReason>
    ensures { Gives (λ x. ((x.0, x.1), tt)) result (read_places tunnel_places (words_left words.entry.rest)) }
{
    let (tunnel, words) = words.tunnel()?;
    words.end()?;
    Ok(tunnel)
}

#[tactic(auto, unfolding(crate::specs::Grammar::keyword_event))]
fn set_up_event(words: Words) -> Result<Event, TextError>
    ensures { GivesOrMemory (λ x. x) result (keyword_event keywords.Static (words_left words.entry.rest)) }
{
    let plan = plan(words)?;
    Ok(Event::Static { plan })
}

#[tactic(auto, unfolding(crate::specs::Grammar::keyword_event))]
fn start_event(words: Words) -> Result<Event, TextError>
    ensures { GivesOrMemory (λ x. x) result (keyword_event keywords.Start (words_left words.entry.rest)) }
{
    words.end()?;
    Ok(Event::Start)
}

#[tactic(auto, unfolding(crate::specs::Grammar::keyword_event))]
fn attach_event(words: Words) -> Result<Event, TextError>
    ensures { GivesOrMemory (λ x. x) result (keyword_event keywords.Attach (words_left words.entry.rest)) }
{
    let plan = plan(words)?;
    Ok(Event::Attach { plan })
}

#[tactic(auto, unfolding(crate::specs::Grammar::keyword_event))]
fn offer_event(alloc: Global, words: Words) -> Result<Event, TextError>
    ensures { GivesOrMemory (λ x. x) result (keyword_event keywords.Offer (words_left words.entry.rest)) }
{
    let (ue, words) = words.ue()?;
    let (bearer, words) = words.bearer()?;
    let (dir, words) = words.dir()?;
    let (packet, words) = words.hex(alloc)?;
    words.end()?;
    Ok(Event::Offer {
        ue,
        bearer,
        dir,
        packet,
    })
}

#[tactic(auto, unfolding(crate::specs::Grammar::keyword_event))]
fn get_event(words: Words) -> Result<Event, TextError>
    ensures { GivesOrMemory (λ x. x) result (keyword_event keywords.Get (words_left words.entry.rest)) }
{
    let (end, teid) = tunnel(words)?;
    Ok(Event::Get { end, teid })
}

#[tactic(auto, unfolding(crate::specs::Grammar::keyword_event))]
fn air_event(words: Words) -> Result<Event, TextError>
    ensures { GivesOrMemory (λ x. x) result (keyword_event keywords.Air (words_left words.entry.rest)) }
{
    let (ue, bearer, dir) = radio(words)?;
    Ok(Event::Air { ue, bearer, dir })
}

#[tactic(auto, unfolding(crate::specs::Grammar::keyword_event))]
fn ack_event(words: Words) -> Result<Event, TextError>
    ensures { GivesOrMemory (λ x. x) result (keyword_event keywords.Ack (words_left words.entry.rest)) }
{
    let (ue, bearer, dir) = radio(words)?;
    Ok(Event::Ack { ue, bearer, dir })
}

#[tactic(auto, unfolding(crate::specs::Grammar::keyword_event))]
fn give_event(words: Words) -> Result<Event, TextError>
    ensures { GivesOrMemory (λ x. x) result (keyword_event keywords.Give (words_left words.entry.rest)) }
{
    let message = message(words)?;
    Ok(Event::Give { message })
}

/// Whether the next word names a message.
fn names_message(words: Words) -> bool
    ensures { result ≡ names_a_message (words_left words.entry.rest) }
{
    match words.next() {
        Ok((word, _)) => word.starts_with(b"#"),
        Err(_) => false,
    }
}

#[tactic(auto, unfolding(crate::specs::Grammar::keyword_event))]
fn lose_event(words: Words) -> Result<Event, TextError>
    ensures { GivesOrMemory (λ x. x) result (keyword_event keywords.Lose (words_left words.entry.rest)) }
{
    if names_message(words) {
        let message = message(words)?;
        return Ok(Event::LoseMessage { message });
    }
    let (end, teid) = tunnel(words)?;
    Ok(Event::LoseItem { end, teid })
}

#[tactic(auto, unfolding(crate::specs::Grammar::keyword_event))]
fn poll_event(words: Words) -> Result<Event, TextError>
    ensures { GivesOrMemory (λ x. x) result (keyword_event keywords.Poll (words_left words.entry.rest)) }
{
    let (ue, bearer) = bearer(words)?;
    Ok(Event::Poll { ue, bearer })
}

#[tactic(auto, unfolding(crate::specs::Grammar::keyword_event))]
fn pump_event(words: Words) -> Result<Event, TextError>
    ensures { GivesOrMemory (λ x. x) result (keyword_event keywords.Pump (words_left words.entry.rest)) }
{
    words.end()?;
    Ok(Event::Pump)
}

#[tactic(auto, unfolding(crate::specs::Grammar::keyword_event))]
fn tick_event(words: Words) -> Result<Event, TextError>
    ensures { GivesOrMemory (λ x. x) result (keyword_event keywords.Tick (words_left words.entry.rest)) }
{
    words.end()?;
    Ok(Event::Tick)
}

#[tactic(auto, unfolding(crate::specs::Grammar::keyword_event))]
fn fail_event(words: Words) -> Result<Event, TextError>
    ensures { GivesOrMemory (λ x. x) result (keyword_event keywords.Fail (words_left words.entry.rest)) }
{
    let ue = ue(words)?;
    Ok(Event::Fail { ue })
}

#[tactic(auto, unfolding(crate::specs::Grammar::keyword_event))]
fn arrive_event(words: Words) -> Result<Event, TextError>
    ensures { GivesOrMemory (λ x. x) result (keyword_event keywords.Arrive (words_left words.entry.rest)) }
{
    let ue = ue(words)?;
    Ok(Event::Arrive { ue })
}

#[tactic(auto, unfolding(crate::specs::Grammar::keyword_event))]
fn return_home_event(words: Words) -> Result<Event, TextError>
    ensures { GivesOrMemory (λ x. x) result (keyword_event keywords.Return (words_left words.entry.rest)) }
{
    let ue = ue(words)?;
    Ok(Event::Return { ue })
}

#[tactic(auto, unfolding(crate::specs::Grammar::keyword_event))]
fn handover_event(words: Words) -> Result<Event, TextError>
    ensures { GivesOrMemory (λ x. x) result (keyword_event keywords.Handover (words_left words.entry.rest)) }
{
    let (ue, words) = words.ue()?;
    let (gnb, words) = words.gnb()?;
    let (up, words) = words.number(1, 2)?;
    let (du, words) = words.number(1, 2)?;
    words.end()?;
    let (up, du) = (up as u8, du as u8);
    Ok(Event::Handover { ue, gnb, up, du })
}

#[tactic(auto, unfolding(crate::specs::Grammar::keyword_event))]
fn cancel_event(words: Words) -> Result<Event, TextError>
    ensures { GivesOrMemory (λ x. x) result (keyword_event keywords.Cancel (words_left words.entry.rest)) }
{
    let ue = ue(words)?;
    Ok(Event::Cancel { ue })
}

#[tactic(auto, unfolding(crate::specs::Grammar::keyword_event))]
fn release_event(words: Words) -> Result<Event, TextError>
    ensures { GivesOrMemory (λ x. x) result (keyword_event keywords.Release (words_left words.entry.rest)) }
{
    let ue = ue(words)?;
    Ok(Event::Release { ue })
}

#[tactic(auto, unfolding(crate::specs::Grammar::keyword_event))]
fn ask_event(words: Words) -> Result<Event, TextError>
    ensures { GivesOrMemory (λ x. x) result (keyword_event keywords.Ask (words_left words.entry.rest)) }
{
    let (ue, bearer) = bearer(words)?;
    Ok(Event::Ask { ue, bearer })
}

#[tactic(auto, unfolding(crate::specs::Grammar::keyword_event))]
fn settle_event(words: Words) -> Result<Event, TextError>
    ensures { GivesOrMemory (λ x. x) result (keyword_event keywords.Settle (words_left words.entry.rest)) }
{
    words.end()?;
    Ok(Event::Settle)
}

/// `FROM TO HEX`
fn inject_message(alloc: Global, words: Words) -> Result<Event, TextError>
    ensures { GivesOrMemory (λ x. x) result (read_form inject_message_form (words_left words.entry.rest)) }
{
    let (from, words) = words.node()?;
    let (to, words) = words.node()?;
    let (bytes, words) = words.hex(alloc)?;
    words.end()?;
    Ok(Event::InjectMessage { from, to, bytes })
}

/// `NODE/TEID HEX`
fn inject_item(alloc: Global, words: Words) -> Result<Event, TextError>
    ensures { GivesOrMemory (λ x. x) result (read_form inject_item_form (words_left words.entry.rest)) }
{
    let ((end, teid), words) = words.tunnel()?;
    let (bytes, words) = words.hex(alloc)?;
    words.end()?;
    Ok(Event::InjectItem { end, teid, bytes })
}

fn has_slash(word: &[u8]) -> bool
    ensures { result ≡ list_any (λ c. c == 47) word.now }
{
    word.iter().any(|c| *c == b'/')
}

/// Whether the next word names a tunnel.
fn names_tunnel(words: Words) -> bool
    ensures { result ≡ names_a_tunnel (words_left words.entry.rest) }
{
    match words.next() {
        Ok((word, _)) => has_slash(word),
        Err(_) => false,
    }
}

#[tactic(auto, unfolding(crate::specs::Grammar::keyword_event))]
fn inject_event(alloc: Global, words: Words) -> Result<Event, TextError>
    ensures { GivesOrMemory (λ x. x) result (keyword_event keywords.Inject (words_left words.entry.rest)) }
{
    if names_tunnel(words) {
        inject_item(alloc, words)
    } else {
        inject_message(alloc, words)
    }
}

/// The event of a keyword, and of the words after it.
fn event_after(alloc: Global, keyword: Keyword, words: Words) -> Result<Event, TextError>
    ensures { GivesOrMemory (λ x. x) result (keyword_event keyword (words_left words.entry.rest)) }
{
    match keyword {
        Keyword::Static => set_up_event(words),
        Keyword::Start => start_event(words),
        Keyword::Attach => attach_event(words),
        Keyword::Offer => offer_event(alloc, words),
        Keyword::Get => get_event(words),
        Keyword::Air => air_event(words),
        Keyword::Ack => ack_event(words),
        Keyword::Give => give_event(words),
        Keyword::Lose => lose_event(words),
        Keyword::Poll => poll_event(words),
        Keyword::Pump => pump_event(words),
        Keyword::Tick => tick_event(words),
        Keyword::Fail => fail_event(words),
        Keyword::Arrive => arrive_event(words),
        Keyword::Return => return_home_event(words),
        Keyword::Handover => handover_event(words),
        Keyword::Cancel => cancel_event(words),
        Keyword::Release => release_event(words),
        Keyword::Ask => ask_event(words),
        Keyword::Settle => settle_event(words),
        Keyword::Inject => inject_event(alloc, words),
    }
}

#[tactic(auto, unfolding(crate::specs::Grammar::event_of))]
fn event(alloc: Global, line: &[u8]) -> Result<Event, TextError>
    ensures { GivesOrMemory (λ x. x) result (event_of line.now) }
{
    let (word, words) = Words::of(line).next()?;
    let keyword = keyword(word).ok_or(TextReason::Word)?;
    event_after(alloc, keyword, words)
}

/// The event of a line of a script, without its LF; the reason is that of the first wrong word from the left.
pub fn read_event(alloc: Global, line: &[u8]) -> Result<Event, TextError>
    ensures exact { GivesOrMemory (λ x. x) result (event_of line.now) }
    ensures in_range { IfOk result InRange }
{
    event(alloc, line)
}

/// Whether a line is not an event: an empty one, or a comment.
pub fn is_skipped(line: &[u8]) -> bool
    ensures { result ≡ skips line.now }
{
    line.is_empty() || line[0] == b';'
}
