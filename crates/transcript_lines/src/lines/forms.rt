//! The lines of a transcript by their words.

ghost use Rattle.std.specs.Prelude.{◌≡◌};
ghost use Rattle.scenario_text.specs.script_words.Answers.{words_left, GivesOrMemory};
ghost use Rattle.scenario_text.specs.Grammar.{names_message as names_a_message};
ghost use Rattle.scenario_text.specs.declared.line.OutLine.TheVariants as lines;
ghost use Rattle.transcript_defs.specs.declared.line.TextLine.TheVariants.{Printed};
ghost use Rattle.transcript_lines.specs.inside.ReadLine.{keyword_text, keyword_of, same_dir as same, is_of_link as of_link, is_held_on as held_on, read_form, item_form, message_form, deliver_form, drop_form, held_form, failed_form, quiet_form, busy_form, number_form, refused_form, outstanding_form, stop_form, moved, lost as lost_line, keyword_line, event_line, line_of as line_of_text};

use crate::lines::{fields, reasons};
use gnb_types::names::Dir;
use gnb_types::reasons::HeldReason;
use scenario_text::line::{Item, Link, Message, OutLine};
use scenario_text::read::read_event;
use scenario_text::script_words::reason::{TextError, TextReason};
use scenario_text::script_words::words::Words;
use std::alloc::Global;
use transcript_defs::line::TextLine;

/// The first word of a line that is no event's.
#[derive(Clone, Copy)]
pub enum Keyword {
    Put,
    Got,
    Deliver,
    Lost,
    Drop,
    Held,
    Failed,
    Quiet,
    Busy,
    Settled,
    Unsettled,
    Refused,
    Outstanding,
    End,
    Stop,
}

const KEYWORDS: [Keyword; 15] = [
    Keyword::Put,
    Keyword::Got,
    Keyword::Deliver,
    Keyword::Lost,
    Keyword::Drop,
    Keyword::Held,
    Keyword::Failed,
    Keyword::Quiet,
    Keyword::Busy,
    Keyword::Settled,
    Keyword::Unsettled,
    Keyword::Refused,
    Keyword::Outstanding,
    Keyword::End,
    Keyword::Stop,
];

impl Keyword {
    fn text(self) -> &'static [u8]
        ensures { result.now ≡ keyword_text self }
    {
        match self {
            Keyword::Put => b"put",
            Keyword::Got => b"got",
            Keyword::Deliver => b"deliver",
            Keyword::Lost => b"lost",
            Keyword::Drop => b"drop",
            Keyword::Held => b"held",
            Keyword::Failed => b"failed",
            Keyword::Quiet => b"quiet",
            Keyword::Busy => b"busy",
            Keyword::Settled => b"settled",
            Keyword::Unsettled => b"unsettled",
            Keyword::Refused => b"refused",
            Keyword::Outstanding => b"outstanding",
            Keyword::End => b"end",
            Keyword::Stop => b"stop",
        }
    }
}

/// The keyword that is this word.
#[tactic(auto, unfolding(crate::specs::inside::ReadLine::keyword_of))]
fn keyword_of_word(word: &[u8]) -> Option<Keyword>
    ensures { result ≡ keyword_of word.now }
{
    KEYWORDS.iter().copied().find(|k| word == k.text())
}

fn printed(line: OutLine) -> TextLine
    ensures { result ≡ Printed line }
{
    TextLine::Printed { line }
}

/// Whether the next word names a control message, as `#5`.
fn names_message(words: Words) -> bool
    ensures { result ≡ names_a_message (words_left words.entry.rest) }
{
    match words.next() {
        Ok((word, _)) => word.starts_with(b"#"),
        Err(_) => false,
    }
}

fn same_dir(a: Dir, b: Dir) -> bool
    ensures { result ≡ same a b }
{
    match (a, b) {
        (Dir::Dl, Dir::Dl) | (Dir::Ul, Dir::Ul) => true,
        (Dir::Dl, Dir::Ul) | (Dir::Ul, Dir::Dl) => false,
    }
}

/// Whether an item can stand on the link: on a radio one of the radio's bearer and direction.
fn is_of_link(link: Link, item: &Item) -> bool
    ensures { result ≡ of_link link item.now }
{
    match link {
        Link::Tunnel { .. } => true,
        Link::Radio {
            ue,
            bearer,
            dir,
            ..
        } => item.ue.0 == ue.0 && item.bearer.0 == bearer.0 && same_dir(item.dir, dir),
    }
}

/// Whether an item can be held on the link for this reason: on a radio for one reason alone.
fn is_held_on(link: Link, reason: HeldReason) -> bool
    ensures { result ≡ held_on link reason }
{
    match (link, reason) {
        (Link::Tunnel { .. }, _) => true,
        (Link::Radio { .. }, HeldReason::Ahead) => true,
        (Link::Radio { .. }, _) => false,
    }
}

/// `LINK uU bB DIR C HEX`
fn item(alloc: Global, words: Words) -> Result<(Link, Item), TextError>
    ensures { GivesOrMemory (λ x. x) result (read_form item_form (words_left words.entry.rest)) }
{
    let (link, words) = fields::link(words)?;
    let (ue, words) = words.ue()?;
    let (bearer, words) = words.bearer()?;
    let (dir, words) = words.dir()?;
    let (count, words) = fields::count(words)?;
    let (bytes, words) = words.hex(alloc)?;
    words.end()?;
    let item = Item {
        ue,
        bearer,
        dir,
        count,
        bytes,
    };
    if !is_of_link(link, &item) {
        return Err(TextError::Refused(TextReason::Name));
    }
    Ok((link, item))
}

/// `#M FROM TO uU HEX`
fn message(alloc: Global, words: Words) -> Result<Message, TextError>
    ensures { GivesOrMemory (λ x. x) result (read_form message_form (words_left words.entry.rest)) }
{
    let (number, words) = words.message()?;
    let (from, words) = words.node()?;
    let (to, words) = words.node()?;
    let (ue, words) = fields::owner(words)?;
    let (bytes, words) = words.hex(alloc)?;
    words.end()?;
    Ok(Message {
        number,
        from,
        to,
        ue,
        bytes,
    })
}

/// `put LINK ..` and `put #M ..`
fn put(alloc: Global, words: Words) -> Result<TextLine, TextError>
    ensures { GivesOrMemory (λ x. x) result (moved lines.Put lines.PutMessage (words_left words.entry.rest)) }
{
    if names_message(words) {
        let message = message(alloc, words)?;
        return Ok(printed(OutLine::PutMessage { message }));
    }
    let (link, item) = item(alloc, words)?;
    Ok(printed(OutLine::Put { link, item }))
}

/// `got LINK ..` and `got #M ..`
fn got(alloc: Global, words: Words) -> Result<TextLine, TextError>
    ensures { GivesOrMemory (λ x. x) result (moved lines.Got lines.GotMessage (words_left words.entry.rest)) }
{
    if names_message(words) {
        let message = message(alloc, words)?;
        return Ok(printed(OutLine::GotMessage { message }));
    }
    let (link, item) = item(alloc, words)?;
    Ok(printed(OutLine::Got { link, item }))
}

/// `deliver uU bB DIR C HEX`
fn deliver(alloc: Global, words: Words) -> Result<TextLine, TextError>
    ensures { GivesOrMemory (λ x. x) result (read_form deliver_form (words_left words.entry.rest)) }
{
    let (ue, words) = words.ue()?;
    let (bearer, words) = words.bearer()?;
    let (dir, words) = words.dir()?;
    let (count, words) = words.number(0, u32::MAX)?;
    let (packet, words) = words.hex(alloc)?;
    words.end()?;
    Ok(printed(OutLine::Deliver {
        ue,
        bearer,
        dir,
        count,
        packet,
    }))
}

/// `lost LINK N` and `lost #M N`
fn lost(words: Words) -> Result<TextLine, TextError>
    ensures { GivesOrMemory (λ x. x) result (lost_line (words_left words.entry.rest)) }
{
    if names_message(words) {
        let (message, words) = words.message()?;
        let (items, words) = fields::number(words, 1, u64::MAX)?;
        words.end()?;
        return Ok(if items == 1 {
            printed(OutLine::LostMessage { message })
        } else {
            TextLine::LostMore { message, items }
        });
    }
    let (link, words) = fields::link(words)?;
    let (items, words) = fields::number(words, 1, u64::MAX)?;
    words.end()?;
    Ok(printed(OutLine::Lost { link, items }))
}

/// `drop NODE REASON`
fn dropped_input(words: Words) -> Result<TextLine, TextError>
    ensures { GivesOrMemory (λ x. x) result (read_form drop_form (words_left words.entry.rest)) }
{
    let (node, words) = words.node()?;
    let (reason, words) = reasons::drop(words)?;
    words.end()?;
    Ok(printed(OutLine::Drop { node, reason }))
}

/// `held LINK REASON`
fn held(words: Words) -> Result<TextLine, TextError>
    ensures { GivesOrMemory (λ x. x) result (read_form held_form (words_left words.entry.rest)) }
{
    let (link, words) = fields::link(words)?;
    let (reason, words) = reasons::held(words)?;
    words.end()?;
    if !is_held_on(link, reason) {
        return Err(TextError::Refused(TextReason::Word));
    }
    Ok(printed(OutLine::Held { link, reason }))
}

/// `failed NODE uU CAUSE`
fn failed(words: Words) -> Result<TextLine, TextError>
    ensures { GivesOrMemory (λ x. x) result (read_form failed_form (words_left words.entry.rest)) }
{
    let (node, words) = words.node()?;
    let (ue, words) = words.ue()?;
    let (cause, words) = reasons::cause(words)?;
    words.end()?;
    Ok(printed(OutLine::Failed { node, ue, cause }))
}

/// `quiet uU bB DL UL`
fn quiet(words: Words) -> Result<TextLine, TextError>
    ensures { GivesOrMemory (λ x. x) result (read_form quiet_form (words_left words.entry.rest)) }
{
    let (ue, words) = words.ue()?;
    let (bearer, words) = words.bearer()?;
    let (downlink, words) = fields::number(words, 0, u64::MAX)?;
    let (uplink, words) = fields::number(words, 0, u64::MAX)?;
    words.end()?;
    Ok(printed(OutLine::Quiet {
        ue,
        bearer,
        downlink,
        uplink,
    }))
}

/// `busy uU bB`
fn busy(words: Words) -> Result<TextLine, TextError>
    ensures { GivesOrMemory (λ x. x) result (read_form busy_form (words_left words.entry.rest)) }
{
    let (ue, words) = words.ue()?;
    let (bearer, words) = words.bearer()?;
    words.end()?;
    Ok(printed(OutLine::Busy { ue, bearer }))
}

/// `settled R`
fn settled(words: Words) -> Result<TextLine, TextError>
    ensures { GivesOrMemory (λ x. x) result (read_form (number_form lines.Settled) (words_left words.entry.rest)) }
{
    let (rounds, words) = fields::number(words, 0, u64::MAX)?;
    words.end()?;
    Ok(printed(OutLine::Settled { rounds }))
}

/// `unsettled R`
fn unsettled(words: Words) -> Result<TextLine, TextError>
    ensures { GivesOrMemory (λ x. x) result (read_form (number_form lines.Unsettled) (words_left words.entry.rest)) }
{
    let (rounds, words) = fields::number(words, 0, u64::MAX)?;
    words.end()?;
    Ok(printed(OutLine::Unsettled { rounds }))
}

/// `refused REASON`
fn refused(words: Words) -> Result<TextLine, TextError>
    ensures { GivesOrMemory (λ x. x) result (read_form refused_form (words_left words.entry.rest)) }
{
    let (reason, words) = reasons::refusal(words)?;
    words.end()?;
    Ok(printed(OutLine::Refused { reason }))
}

/// `outstanding uU bB DIR SPAN W`
fn outstanding(words: Words) -> Result<TextLine, TextError>
    ensures { GivesOrMemory (λ x. x) result (read_form outstanding_form (words_left words.entry.rest)) }
{
    let (ue, words) = words.ue()?;
    let (bearer, words) = words.bearer()?;
    let (dir, words) = words.dir()?;
    let (span, words) = fields::number(words, 0, u64::MAX)?;
    let (window, words) = fields::number(words, 0, u64::MAX)?;
    words.end()?;
    if window < 1 << 32 {
        return Ok(printed(OutLine::Outstanding {
            ue,
            bearer,
            dir,
            span,
            window: window as u32,
        }));
    }
    Ok(TextLine::OutstandingWide {
        ue,
        bearer,
        dir,
        span,
        window,
    })
}

/// `end N`
fn end(words: Words) -> Result<TextLine, TextError>
    ensures { GivesOrMemory (λ x. x) result (read_form (number_form lines.End) (words_left words.entry.rest)) }
{
    let (events, words) = fields::number(words, 0, u64::MAX)?;
    words.end()?;
    Ok(printed(OutLine::End { events }))
}

/// `stop CODE PLACE REASON`
fn stop(words: Words) -> Result<TextLine, TextError>
    ensures { GivesOrMemory (λ x. x) result (read_form stop_form (words_left words.entry.rest)) }
{
    let (code, words) = words.number(0, u32::from(u8::MAX))?;
    let (place, words) = fields::number(words, 0, u64::MAX)?;
    let (reason, words) = words.number(0, u32::from(u16::MAX))?;
    words.end()?;
    Ok(printed(OutLine::Stop {
        code: code as u8,
        place,
        reason: reason as u16,
    }))
}

/// The line of a keyword, and of the words after it.
#[tactic(auto, unfolding(crate::specs::inside::ReadLine::keyword_line))]
fn line_after(alloc: Global, keyword: Keyword, words: Words) -> Result<TextLine, TextError>
    ensures { GivesOrMemory (λ x. x) result (keyword_line keyword (words_left words.entry.rest)) }
{
    match keyword {
        Keyword::Put => put(alloc, words),
        Keyword::Got => got(alloc, words),
        Keyword::Deliver => deliver(alloc, words),
        Keyword::Lost => lost(words),
        Keyword::Drop => dropped_input(words),
        Keyword::Held => held(words),
        Keyword::Failed => failed(words),
        Keyword::Quiet => quiet(words),
        Keyword::Busy => busy(words),
        Keyword::Settled => settled(words),
        Keyword::Unsettled => unsettled(words),
        Keyword::Refused => refused(words),
        Keyword::Outstanding => outstanding(words),
        Keyword::End => end(words),
        Keyword::Stop => stop(words),
    }
}

fn event(alloc: Global, text: &[u8]) -> Result<TextLine, TextError>
    ensures { GivesOrMemory (λ x. x) result (event_line text.now) }
{
    let event = read_event(alloc, text)?;
    Ok(printed(OutLine::Happens { event }))
}

/// What a text is read as, where hexadecimal digits may be of either case.
#[tactic(auto, unfolding(crate::specs::inside::ReadLine::line_of))]
pub fn line_of(alloc: Global, text: &[u8]) -> Result<TextLine, TextError>
    ensures { GivesOrMemory (λ x. x) result (line_of_text text.now) }
{
    if let Some(text) = text.strip_prefix(b"> ") {
        return event(alloc, text);
    }
    let (word, words) = Words::of(text).next()?;
    let keyword = keyword_of_word(word).ok_or(TextReason::Word)?;
    line_after(alloc, keyword, words)
}
