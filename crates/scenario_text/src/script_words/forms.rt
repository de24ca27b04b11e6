//! What one word means: numbers, names, directions and hexadecimal digits.

ghost use Rattle.std.specs.Prelude.{◌≡◌, ◌==◌, ◌<◌, ◌≤◌, length, position, IfSome, MatchOption};
ghost use Rattle.std.specs.Char.{is_ascii_digit};
ghost use Rattle.std.specs.List.{list_all, before_first, after_first, position_or_len};
ghost use Rattle.scenario_text.specs.script_words.Forms.{is_plain as plain, number_of, sn_bits_of, message_of, gnb_of, ue_of, bearer_of, unit_of, node_of, dir_of, hex as hex_form, tunnel as tunnel_form};
ghost use Rattle.scenario_text.specs.script_words.Answers.{Gives, GivesOrMemory};

use crate::script_words::reason::{TextError, TextReason};
use gnb_types::hex::{HexError, hex_bytes};
use gnb_types::names::{BearerId, Dir, Gnb, NodeId, SnBits, UeId};
use gnb_types::octets::Octets;
use std::alloc::Global;

/// Where a byte stands first.
fn find(text: &[u8], byte: u8) -> Option<usize>
    ensures { result ≡ position (λ c. c == byte) text.now }
{
    text.iter().position(|c| *c == byte)
}

/// The text before the first such byte, and the text after it, if it stands there.
pub fn cut(text: &[u8], byte: u8) -> (&[u8], Option<&[u8]>)
    ensures front { result.0.now ≡ before_first (λ c. c == byte) text.now }
    ensures rest { MatchOption result.1 (length text.now ≤ position_or_len (λ c. c == byte) text.now) (λ rest. (position_or_len (λ c. c == byte) text.now < length text.now) × (rest.now ≡ after_first (λ c. c == byte) text.now)) }
{
    match find(text, byte) {
        Some(i) => (&text[..i], Some(&text[i + 1..])),
        None => (text, None),
    }
}

fn all_digits(word: &[u8]) -> bool
    ensures { result ≡ list_all is_ascii_digit word.now }
{
    word.iter().all(|c| c.is_ascii_digit())
}

/// Whether a word has digits alone, at least one, and no leading zero.
fn is_plain(word: &[u8]) -> bool
    ensures { result ≡ plain word.now }
{
    !word.is_empty() && all_digits(word) && (word[0] != b'0' || word.len() == 1)
}

/// A number in plain decimal.
pub fn number(word: &[u8], low: u32, high: u32) -> Option<u32>
    ensures value { result ≡ number_of low high word.now }
    ensures range { IfSome result (λ n. (low ≤ n) × (n ≤ high)) }
{
    if !is_plain(word) {
        return None;
    }
    let text = std::str::from_utf8(word).ok()?;
    let value = text.parse::<u32>().ok()?;
    (low <= value && value <= high).then_some(value)
}

/// A number from 1 on.
fn small(word: &[u8], high: u8) -> Option<u8>
    ensures { result ≡ number_of 1 high word.now }
{
    Some(number(word, 1, u32::from(high))? as u8)
}

pub fn sn_bits(word: &[u8]) -> Option<SnBits>
    ensures { result ≡ sn_bits_of word.now }
{
    if word == b"12".as_slice() {
        Some(SnBits::Len12)
    } else if word == b"18".as_slice() {
        Some(SnBits::Len18)
    } else {
        None
    }
}

/// The number of a message, as `#5`.
pub fn message(word: &[u8]) -> Option<u32>
    ensures { result ≡ message_of word.now }
{
    number(word.strip_prefix(b"#")?, 1, u32::MAX)
}

pub fn gnb(word: &[u8]) -> Option<Gnb>
    ensures { result ≡ gnb_of word.now }
{
    if word == b"A".as_slice() {
        Some(Gnb::A)
    } else if word == b"B".as_slice() {
        Some(Gnb::B)
    } else {
        None
    }
}

pub fn ue(word: &[u8]) -> Option<UeId>
    ensures { result ≡ ue_of word.now }
{
    let number = word.strip_prefix(b"u")?;
    Some(UeId(small(number, 16)?))
}

pub fn bearer(word: &[u8]) -> Option<BearerId>
    ensures { result ≡ bearer_of word.now }
{
    let number = word.strip_prefix(b"b")?;
    Some(BearerId(small(number, 8)?))
}

/// A unit of a gNB, as `cp` or `up1`.
fn unit(gnb: Gnb, word: &[u8]) -> Option<NodeId>
    ensures { result ≡ unit_of gnb word.now }
{
    if word == b"cp".as_slice() {
        return Some(NodeId::CuCp(gnb));
    }
    if let Some(number) = word.strip_prefix(b"up") {
        return Some(NodeId::CuUp(gnb, small(number, 2)?));
    }
    let number = word.strip_prefix(b"du")?;
    Some(NodeId::Du(gnb, small(number, 2)?))
}

pub fn node(word: &[u8]) -> Option<NodeId>
    ensures { result ≡ node_of word.now }
{
    if word == b"core".as_slice() {
        return Some(NodeId::Core);
    }
    if let Some(number) = word.strip_prefix(b"u") {
        return Some(NodeId::Ue(small(number, 16)?));
    }
    if let Some(word) = word.strip_prefix(b"A.") {
        return unit(Gnb::A, word);
    }
    unit(Gnb::B, word.strip_prefix(b"B.")?)
}

pub fn dir(word: &[u8]) -> Option<Dir>
    ensures { result ≡ dir_of word.now }
{
    if word == b"dl".as_slice() {
        Some(Dir::Dl)
    } else if word == b"ul".as_slice() {
        Some(Dir::Ul)
    } else {
        None
    }
}

pub fn hex(alloc: Global, word: &[u8]) -> Result<Octets, TextError>
    ensures { GivesOrMemory (λ x. x) result (hex_form word.now) }
{
    if word.is_empty() {
        return Err(TextError::Refused(TextReason::Hex));
    }
    match hex_bytes(alloc, word) {
        Ok(bytes) => Ok(bytes),
        Err(HexError::NotHex) => Err(TextError::Refused(TextReason::Hex)),
        Err(HexError::Memory) => Err(TextError::Memory),
    }
}

pub fn tunnel(word: &[u8]) -> Result<(NodeId, u32), TextReason>
    ensures { Gives (λ x. x) result (tunnel_form word.now) }
{
    let (end, teid) = cut(word, b'/');
    let end = node(end).ok_or(TextReason::Name)?;
    let Some(teid) = teid else {
        return Err(TextReason::Number);
    };
    let teid = number(teid, 1, u32::MAX).ok_or(TextReason::Number)?;
    Ok((end, teid))
}
