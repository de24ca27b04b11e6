//! Reading the events of a script. The first wrong word from the left decides the reason.

ghost use Rattle.std.specs.Prelude.{◌≡◌, IfOk, Some};
ghost use Rattle.scenario_text.specs.script_words.Answers.{words_left, Gives, GivesOrMemory};
ghost use Rattle.dup.specs.text.Arguments.{AtLeg, AtMode, leg_of, mode_of, read_argument};
ghost use Rattle.dup.specs.text.Grammar.{keyword_event, event_of};
ghost use Rattle.dup.specs.text.Texts.{InRange};
ghost use Rattle.dup.specs.declared.text.keyword.DupKeyword.TheVariants as keywords;

use crate::text::keyword::{DupKeyword, keyword};
use dup_defs::types::event::DupEvent;
use dup_defs::types::leg::{Leg, Mode};
use scenario_text::script_words::reason::{TextError, TextReason};
use scenario_text::script_words::words::Words;
use std::alloc::Global;

fn leg_word(word: &[u8]) -> Option<Leg>
    ensures { result ≡ leg_of word.now }
{
    if word == b"1".as_slice() {
        Some(Leg::First)
    } else if word == b"2".as_slice() {
        Some(Leg::Second)
    } else {
        None
    }
}

fn mode_word(word: &[u8]) -> Option<Mode>
    ensures { result ≡ mode_of word.now }
{
    if word == b"both".as_slice() {
        Some(Mode::Both)
    } else if word == b"1".as_slice() {
        Some(Mode::First)
    } else if word == b"2".as_slice() {
        Some(Mode::Second)
    } else {
        None
    }
}

/// `L`, and no word after it.
fn leg(words: Words) -> Result<Leg, TextReason>
    ensures { Gives (λ leg. leg) result (read_argument (Some AtLeg) (words_left words.entry.rest)) }
{
    let (word, words) = words.next()?;
    let leg = leg_word(word).ok_or(TextReason::Number)?;
    words.end()?;
    Ok(leg)
}

/// `both`, `1` or `2`, and no word after it.
fn mode(words: Words) -> Result<Mode, TextReason>
    ensures { Gives (λ mode. mode) result (read_argument (Some AtMode) (words_left words.entry.rest)) }
{
    let (word, words) = words.next()?;
    let mode = mode_word(word).ok_or(TextReason::Word)?;
    words.end()?;
    Ok(mode)
}

#[tactic(auto, unfolding(crate::specs::text::Grammar::keyword_event))]
fn offer_event(alloc: Global, words: Words) -> Result<DupEvent, TextError>
    ensures { GivesOrMemory (λ x. x) result (keyword_event keywords.Offer (words_left words.entry.rest)) }
{
    let (packet, words) = words.hex(alloc)?;
    words.end()?;
    Ok(DupEvent::Offer { packet })
}

#[tactic(auto, unfolding(crate::specs::text::Grammar::keyword_event))]
fn carry_event(words: Words) -> Result<DupEvent, TextError>
    ensures { GivesOrMemory (λ x. x) result (keyword_event keywords.Carry (words_left words.entry.rest)) }
{
    let leg = leg(words)?;
    Ok(DupEvent::Carry { leg })
}

#[tactic(auto, unfolding(crate::specs::text::Grammar::keyword_event))]
fn confirm_event(words: Words) -> Result<DupEvent, TextError>
    ensures { GivesOrMemory (λ x. x) result (keyword_event keywords.Confirm (words_left words.entry.rest)) }
{
    let leg = leg(words)?;
    Ok(DupEvent::Confirm { leg })
}

#[tactic(auto, unfolding(crate::specs::text::Grammar::keyword_event))]
fn fail_event(words: Words) -> Result<DupEvent, TextError>
    ensures { GivesOrMemory (λ x. x) result (keyword_event keywords.Fail (words_left words.entry.rest)) }
{
    let leg = leg(words)?;
    Ok(DupEvent::Fail { leg })
}

#[tactic(auto, unfolding(crate::specs::text::Grammar::keyword_event))]
fn mend_event(words: Words) -> Result<DupEvent, TextError>
    ensures { GivesOrMemory (λ x. x) result (keyword_event keywords.Mend (words_left words.entry.rest)) }
{
    let leg = leg(words)?;
    Ok(DupEvent::Mend { leg })
}

#[tactic(auto, unfolding(crate::specs::text::Grammar::keyword_event))]
fn mode_event(words: Words) -> Result<DupEvent, TextError>
    ensures { GivesOrMemory (λ x. x) result (keyword_event keywords.Mode (words_left words.entry.rest)) }
{
    let mode = mode(words)?;
    Ok(DupEvent::SetMode { mode })
}

#[tactic(auto, unfolding(crate::specs::text::Grammar::keyword_event))]
fn drain_event(words: Words) -> Result<DupEvent, TextError>
    ensures { GivesOrMemory (λ x. x) result (keyword_event keywords.Drain (words_left words.entry.rest)) }
{
    words.end()?;
    Ok(DupEvent::Drain)
}

#[tactic(auto, unfolding(crate::specs::text::Grammar::keyword_event))]
fn ask_event(words: Words) -> Result<DupEvent, TextError>
    ensures { GivesOrMemory (λ x. x) result (keyword_event keywords.Ask (words_left words.entry.rest)) }
{
    words.end()?;
    Ok(DupEvent::Ask)
}

/// The event of a keyword, and of the words after it.
fn event_after(alloc: Global, keyword: DupKeyword, words: Words) -> Result<DupEvent, TextError>
    ensures { GivesOrMemory (λ x. x) result (keyword_event keyword (words_left words.entry.rest)) }
{
    match keyword {
        DupKeyword::Offer => offer_event(alloc, words),
        DupKeyword::Carry => carry_event(words),
        DupKeyword::Confirm => confirm_event(words),
        DupKeyword::Fail => fail_event(words),
        DupKeyword::Mend => mend_event(words),
        DupKeyword::Mode => mode_event(words),
        DupKeyword::Drain => drain_event(words),
        DupKeyword::Ask => ask_event(words),
    }
}

#[tactic(auto, unfolding(crate::specs::text::Grammar::event_of))]
fn event(alloc: Global, line: &[u8]) -> Result<DupEvent, TextError>
    ensures { GivesOrMemory (λ x. x) result (event_of line.now) }
{
    let (word, words) = Words::of(line).next()?;
    let keyword = keyword(word).ok_or(TextReason::Word)?;
    event_after(alloc, keyword, words)
}

/// The event of a line of a script, without its LF; the reason is that of the first wrong word from the left.
pub fn read_event(alloc: Global, line: &[u8]) -> Result<DupEvent, TextError>
    ensures exact { GivesOrMemory (λ x. x) result (event_of line.now) }
    ensures in_range { IfOk result InRange }
{
    event(alloc, line)
}
