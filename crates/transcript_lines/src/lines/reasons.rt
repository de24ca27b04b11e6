//! The words of a line that say why something did not happen.

ghost use Rattle.std.specs.Prelude.{◌≡◌};
ghost use Rattle.gnb_types.specs.Reasons.{drop_text as text_of_drop, held_text as text_of_held, cause_text as text_of_cause, refuse_text as text_of_refusal};
ghost use Rattle.scenario_text.specs.script_words.Places.{place};
ghost use Rattle.scenario_text.specs.script_words.Answers.{words_left, Gives};
ghost use Rattle.transcript_lines.specs.inside.Fields.{drop_of, held_of, cause_of, refusal_of, read_field, OfDrop, OfHeld, OfCause, OfRefusal};

use gnb_types::reasons::{CauseName, DropReason, HeldReason, RefuseReason};
use scenario_text::script_words::reason::TextReason;
use scenario_text::script_words::words::Words;

const DROPS: [DropReason; 9] = [
    DropReason::Undecodable,
    DropReason::Criticality,
    DropReason::NoContext,
    DropReason::NoTunnel,
    DropReason::Stale,
    DropReason::Busy,
    DropReason::Duplicate,
    DropReason::Gap,
    DropReason::Unexpected,
];

const HELDS: [HeldReason; 5] = [
    HeldReason::Quota,
    HeldReason::Ahead,
    HeldReason::NoStatus,
    HeldReason::NotArrived,
    HeldReason::Early,
];

const CAUSES: [CauseName; 4] = [
    CauseName::Quota,
    CauseName::Busy,
    CauseName::Unit,
    CauseName::Timeout,
];

const REFUSALS: [RefuseReason; 18] = [
    RefuseReason::Attached,
    RefuseReason::NotStarted,
    RefuseReason::NoBearer,
    RefuseReason::NoPath,
    RefuseReason::Size,
    RefuseReason::Quota,
    RefuseReason::NoSuch,
    RefuseReason::Empty,
    RefuseReason::NoRadio,
    RefuseReason::NotAllowed,
    RefuseReason::NoUe,
    RefuseReason::NotAccessing,
    RefuseReason::NoHome,
    RefuseReason::Busy,
    RefuseReason::Same,
    RefuseReason::TooLate,
    RefuseReason::NoLink,
    RefuseReason::Decodable,
];

fn drop_text(reason: DropReason) -> &'static [u8]
    ensures { result.now ≡ text_of_drop reason }
{
    match reason {
        DropReason::Undecodable => b"Undecodable",
        DropReason::Criticality => b"Criticality",
        DropReason::NoContext => b"NoContext",
        DropReason::NoTunnel => b"NoTunnel",
        DropReason::Stale => b"Stale",
        DropReason::Busy => b"Busy",
        DropReason::Duplicate => b"Duplicate",
        DropReason::Gap => b"Gap",
        DropReason::Unexpected => b"Unexpected",
    }
}

#[tactic(auto, unfolding(crate::specs::inside::Fields::drop_of))]
fn drop_of_word(word: &[u8]) -> Option<DropReason>
    ensures { result ≡ drop_of word.now }
{
    DROPS.iter().copied().find(|r| word == drop_text(*r))
}

/// A reason of `drop`.
pub fn drop(words: Words) -> Result<(DropReason, Words), TextReason>
    ensures { Gives (λ x. (x.0, words_left x.1.rest)) result (place (read_field OfDrop) (words_left words.entry.rest)) }
{
    let (word, rest) = words.next()?;
    Ok((drop_of_word(word).ok_or(TextReason::Word)?, rest))
}

fn held_text(reason: HeldReason) -> &'static [u8]
    ensures { result.now ≡ text_of_held reason }
{
    match reason {
        HeldReason::Quota => b"Quota",
        HeldReason::Ahead => b"Ahead",
        HeldReason::NoStatus => b"NoStatus",
        HeldReason::NotArrived => b"NotArrived",
        HeldReason::Early => b"Early",
    }
}

#[tactic(auto, unfolding(crate::specs::inside::Fields::held_of))]
fn held_of_word(word: &[u8]) -> Option<HeldReason>
    ensures { result ≡ held_of word.now }
{
    HELDS.iter().copied().find(|r| word == held_text(*r))
}

/// A reason of `held`.
pub fn held(words: Words) -> Result<(HeldReason, Words), TextReason>
    ensures { Gives (λ x. (x.0, words_left x.1.rest)) result (place (read_field OfHeld) (words_left words.entry.rest)) }
{
    let (word, rest) = words.next()?;
    Ok((held_of_word(word).ok_or(TextReason::Word)?, rest))
}

fn cause_text(cause: CauseName) -> &'static [u8]
    ensures { result.now ≡ text_of_cause cause }
{
    match cause {
        CauseName::Quota => b"quota",
        CauseName::Busy => b"busy",
        CauseName::Unit => b"unit",
        CauseName::Timeout => b"timeout",
    }
}

#[tactic(auto, unfolding(crate::specs::inside::Fields::cause_of))]
fn cause_of_word(word: &[u8]) -> Option<CauseName>
    ensures { result ≡ cause_of word.now }
{
    CAUSES.iter().copied().find(|r| word == cause_text(*r))
}

/// A cause of `failed`.
pub fn cause(words: Words) -> Result<(CauseName, Words), TextReason>
    ensures { Gives (λ x. (x.0, words_left x.1.rest)) result (place (read_field OfCause) (words_left words.entry.rest)) }
{
    let (word, rest) = words.next()?;
    Ok((cause_of_word(word).ok_or(TextReason::Word)?, rest))
}

fn refusal_text(reason: RefuseReason) -> &'static [u8]
    ensures { result.now ≡ text_of_refusal reason }
{
    match reason {
        RefuseReason::Attached => b"Attached",
        RefuseReason::NotStarted => b"NotStarted",
        RefuseReason::NoBearer => b"NoBearer",
        RefuseReason::NoPath => b"NoPath",
        RefuseReason::Size => b"Size",
        RefuseReason::Quota => b"Quota",
        RefuseReason::NoSuch => b"NoSuch",
        RefuseReason::Empty => b"Empty",
        RefuseReason::NoRadio => b"NoRadio",
        RefuseReason::NotAllowed => b"NotAllowed",
        RefuseReason::NoUe => b"NoUe",
        RefuseReason::NotAccessing => b"NotAccessing",
        RefuseReason::NoHome => b"NoHome",
        RefuseReason::Busy => b"Busy",
        RefuseReason::Same => b"Same",
        RefuseReason::TooLate => b"TooLate",
        RefuseReason::NoLink => b"NoLink",
        RefuseReason::Decodable => b"Decodable",
    }
}

#[tactic(auto, unfolding(crate::specs::inside::Fields::refusal_of))]
fn refusal_of_word(word: &[u8]) -> Option<RefuseReason>
    ensures { result ≡ refusal_of word.now }
{
    REFUSALS.iter().copied().find(|r| word == refusal_text(*r))
}

/// A reason of `refused`.
pub fn refusal(words: Words) -> Result<(RefuseReason, Words), TextReason>
    ensures { Gives (λ x. (x.0, words_left x.1.rest)) result (place (read_field OfRefusal) (words_left words.entry.rest)) }
{
    let (word, rest) = words.next()?;
    Ok((refusal_of_word(word).ok_or(TextReason::Word)?, rest))
}
