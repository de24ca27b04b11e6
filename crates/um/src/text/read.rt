//! Reading the events of a script. The first wrong word from the left decides the reason.

ghost use Rattle.std.specs.Prelude.{IfOk};
ghost use Rattle.scenario_text.specs.script_words.Answers.{words_left, Gives, GivesOrMemory};
ghost use Rattle.scenario_text.specs.script_words.Places.{read_places};
ghost use Rattle.um.specs.text.Grammar.{message_places, keyword_event, event_of};
ghost use Rattle.um.specs.text.Texts.{InRange};
ghost use Rattle.um.specs.declared.text.keyword.UmKeyword.TheVariants as keywords;

use crate::text::keyword::{UmKeyword, keyword};
use scenario_text::script_words::reason::{TextError, TextReason};
use scenario_text::script_words::words::Words;
use std::alloc::Global;
use um_defs::types::event::UmEvent;

/// `#M`
fn message(words: Words) -> Result<u32, TextReason>
    ensures { Gives (λ message. (message, tt)) result (read_places message_places (words_left words.entry.rest)) }
{
    let (message, words) = words.message()?;
    words.end()?;
    Ok(message)
}

#[tactic(auto, unfolding(crate::specs::text::Grammar::keyword_event))]
fn offer_event(alloc: Global, words: Words) -> Result<UmEvent, TextError>
    ensures { GivesOrMemory (λ x. x) result (keyword_event keywords.Offer (words_left words.entry.rest)) }
{
    let (packet, words) = words.hex(alloc)?;
    words.end()?;
    Ok(UmEvent::Offer { packet })
}

#[tactic(auto, unfolding(crate::specs::text::Grammar::keyword_event))]
fn give_event(words: Words) -> Result<UmEvent, TextError>
    ensures { GivesOrMemory (λ x. x) result (keyword_event keywords.Give (words_left words.entry.rest)) }
{
    let number = message(words)?;
    Ok(UmEvent::Give { number })
}

#[tactic(auto, unfolding(crate::specs::text::Grammar::keyword_event))]
fn again_event(words: Words) -> Result<UmEvent, TextError>
    ensures { GivesOrMemory (λ x. x) result (keyword_event keywords.Again (words_left words.entry.rest)) }
{
    let number = message(words)?;
    Ok(UmEvent::Again { number })
}

#[tactic(auto, unfolding(crate::specs::text::Grammar::keyword_event))]
fn lose_event(words: Words) -> Result<UmEvent, TextError>
    ensures { GivesOrMemory (λ x. x) result (keyword_event keywords.Lose (words_left words.entry.rest)) }
{
    let number = message(words)?;
    Ok(UmEvent::Lose { number })
}

#[tactic(auto, unfolding(crate::specs::text::Grammar::keyword_event))]
fn tick_event(words: Words) -> Result<UmEvent, TextError>
    ensures { GivesOrMemory (λ x. x) result (keyword_event keywords.Tick (words_left words.entry.rest)) }
{
    words.end()?;
    Ok(UmEvent::Tick)
}

#[tactic(auto, unfolding(crate::specs::text::Grammar::keyword_event))]
fn ask_event(words: Words) -> Result<UmEvent, TextError>
    ensures { GivesOrMemory (λ x. x) result (keyword_event keywords.Ask (words_left words.entry.rest)) }
{
    words.end()?;
    Ok(UmEvent::Ask)
}

/// The event of a keyword, and of the words after it.
fn event_after(alloc: Global, keyword: UmKeyword, words: Words) -> Result<UmEvent, TextError>
    ensures { GivesOrMemory (λ x. x) result (keyword_event keyword (words_left words.entry.rest)) }
{
    match keyword {
        UmKeyword::Offer => offer_event(alloc, words),
        UmKeyword::Give => give_event(words),
        UmKeyword::Again => again_event(words),
        UmKeyword::Lose => lose_event(words),
        UmKeyword::Tick => tick_event(words),
        UmKeyword::Ask => ask_event(words),
    }
}

#[tactic(auto, unfolding(crate::specs::text::Grammar::event_of))]
fn event(alloc: Global, line: &[u8]) -> Result<UmEvent, TextError>
    ensures { GivesOrMemory (λ x. x) result (event_of line.now) }
{
    let (word, words) = Words::of(line).next()?;
    let keyword = keyword(word).ok_or(TextReason::Word)?;
    event_after(alloc, keyword, words)
}

/// The event of a line of a script, without its LF; the reason is that of the first wrong word from the left.
pub fn read_event(alloc: Global, line: &[u8]) -> Result<UmEvent, TextError>
    ensures exact { GivesOrMemory (λ x. x) result (event_of line.now) }
    ensures in_range { IfOk result InRange }
{
    event(alloc, line)
}
