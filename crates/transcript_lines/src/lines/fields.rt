//! The words of a line that no event has.

ghost use Rattle.std.specs.Prelude.{◌≡◌, ◌==◌, ◌≤◌, IfOk};
ghost use Rattle.std.specs.Char.{is_ascii_digit};
ghost use Rattle.std.specs.List.{list_all, before_first, after_first};
ghost use Rattle.scenario_text.specs.script_words.Forms.{is_plain as plain, number_of, number as number_form};
ghost use Rattle.scenario_text.specs.script_words.Places.{place};
ghost use Rattle.scenario_text.specs.script_words.Answers.{words_left, Gives};
ghost use Rattle.transcript_lines.specs.inside.Fields.{owner_of, count_of, radio as radio_form, link as link_form, read_field, OfOwner, OfCount, OfLink};

use scenario_text::line::Link;
use scenario_text::script_words::forms;
use scenario_text::script_words::reason::TextReason;
use scenario_text::script_words::words::Words;

fn all_digits(word: &[u8]) -> bool
    ensures { result ≡ list_all is_ascii_digit word.now }
{
    word.iter().all(|c| c.is_ascii_digit())
}

/// Whether a word has digits alone, at least one, and no leading zero.
fn is_plain(word: &[u8]) -> bool
    ensures { result ≡ plain word.now }
{
    !word.is_empty() && all_digits(word) && (word[0] != b'0' || word.len() == 1)
}

/// A number in plain decimal, which may have 64 bits.
fn number_of_word(word: &[u8], low: u64, high: u64) -> Option<u64>
    ensures { result ≡ number_of low high word.now }
{
    if !is_plain(word) {
        return None;
    }
    let text = std::str::from_utf8(word).ok()?;
    let value = text.parse::<u64>().ok()?;
    (low <= value && value <= high).then_some(value)
}

/// A number from `low` to `high`.
pub fn number<'a>(words: Words<'a>, low: u64, high: u64) -> Result<(u64, Words<'a>), TextReason>
    ensures value { Gives (λ x. (x.0, words_left x.1.rest)) result (place (number_form low high) (words_left words.entry.rest)) }
    ensures range { IfOk result (λ x. x.0 ≤ high) }
{
    let (word, rest) = words.next()?;
    let number = number_of_word(word, low, high).ok_or(TextReason::Number)?;
    Ok((number, rest))
}

fn owner_of_word(word: &[u8]) -> Option<u8>
    ensures { result ≡ owner_of word.now }
{
    Some(forms::number(word.strip_prefix(b"u")?, 0, 16)? as u8)
}

/// The terminal of a control message: `u1` to `u16`, or `u0` for none.
pub fn owner(words: Words) -> Result<(u8, Words), TextReason>
    ensures { Gives (λ x. (x.0, words_left x.1.rest)) result (place (read_field OfOwner) (words_left words.entry.rest)) }
{
    let (word, rest) = words.next()?;
    Ok((owner_of_word(word).ok_or(TextReason::Name)?, rest))
}

fn count_of_word(word: &[u8]) -> Option<Option<u32>>
    ensures { result ≡ count_of word.now }
{
    if word == b"-".as_slice() {
        return Some(None);
    }
    Some(Some(forms::number(word, 0, u32::MAX)?))
}

/// A COUNT, or `-` where none is known.
pub fn count(words: Words) -> Result<(Option<u32>, Words), TextReason>
    ensures { Gives (λ x. (x.0, words_left x.1.rest)) result (place (read_field OfCount) (words_left words.entry.rest)) }
{
    let (word, rest) = words.next()?;
    Ok((count_of_word(word).ok_or(TextReason::Number)?, rest))
}

/// The text before the first slash and the text after it, which is empty where there is no slash.
fn part(text: &[u8]) -> (&[u8], &[u8])
    ensures front { result.0.now ≡ before_first (λ c. c == 47) text.now }
    ensures rest { result.1.now ≡ after_first (λ c. c == 47) text.now }
{
    let (front, rest) = forms::cut(text, b'/');
    match rest {
        Some(rest) => (front, rest),
        None => (front, &text[text.len()..]),
    }
}

/// `uU/bB/DIR/EPOCH`
fn radio(text: &[u8]) -> Result<Link, TextReason>
    ensures { Gives (λ x. x) result (radio_form text.now) }
{
    let (ue, rest) = part(text);
    let (bearer, rest) = part(rest);
    let (dir, epoch) = part(rest);
    let ue = forms::ue(ue).ok_or(TextReason::Name)?;
    let bearer = forms::bearer(bearer).ok_or(TextReason::Name)?;
    let dir = forms::dir(dir).ok_or(TextReason::Word)?;
    let epoch = forms::number(epoch, 0, u32::MAX).ok_or(TextReason::Number)?;
    Ok(Link::Radio {
        ue,
        bearer,
        dir,
        epoch,
    })
}

fn link_of_word(word: &[u8]) -> Result<Link, TextReason>
    ensures { Gives (λ x. x) result (link_form word.now) }
{
    if let Some(text) = word.strip_prefix(b"r/") {
        return radio(text);
    }
    let (end, teid) = forms::tunnel(word)?;
    Ok(Link::Tunnel { end, teid })
}

/// A tunnel as `A.up1/1`, or a radio as `r/u1/b1/dl/1`.
pub fn link(words: Words) -> Result<(Link, Words), TextReason>
    ensures { Gives (λ x. (x.0, words_left x.1.rest)) result (place (read_field OfLink) (words_left words.entry.rest)) }
{
    let (word, rest) = words.next()?;
    Ok((link_of_word(word)?, rest))
}
